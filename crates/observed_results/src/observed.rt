//! A set of shared words.

ghost use Rattle.std.specs.Prelude.{◌≡◌, ◌↔◌, ◌⊎◌, ℕ, ◌<◌, ◌≤◌, Bool, true, false, MatchBool, MatchOption, IfOk};
ghost use Rattle.std.specs.Prelude.{OnOk, length};
ghost use Rattle.observed_results.specs.Lists.{IsItem, IsWordList, Lists, Names, observes};

use crate::items::range_of;
use std::alloc::{AllocError, Global};
use std::marker::Model;

/// A set of shared words of a machine. Contracts see a mark for each word of the machine: whether the set has it.
#[derive(Debug, Drop)]
pub struct ObservedWords {
    marks: Vec<bool>,
}

impl Model for ObservedWords {
    ghost use Rattle.std.specs.Prelude.{Bool, List};

    ghost Value = { List Bool };

    ghost view = { λ o. o.marks.items };
}

impl ObservedWords {
    /// The set that a list names, on a machine with this many words, or None if the text is no list of such words. A
    /// list has numbers and ranges with commas between them, as `0-3,8`, in any order.
    ///
    /// # Errors
    ///
    /// [`AllocError`] if there is no memory for the set.
    pub fn of_list(alloc: Global, list: &str, words: u32) -> Result<Option<Self>, AllocError>
        ensures { IfOk result (λ set. MatchOption set (IsWordList words list.now → ⊥)
            (λ marks. IsWordList words list.now × ((word : ℕ) → (observes marks word ≡ true) ↔ Lists list.now word))) }
    {
        let mut marks = no_marks(alloc, words)?;
        let mut rest = list;
        while let Some((item, after)) = rest.split_once(',') {
            if !mark_item(&mut marks, item, words) {
                return Ok(None);
            }
            rest = after;
        }
        if !mark_item(&mut marks, rest, words) {
            return Ok(None);
        }
        Ok(Some(ObservedWords { marks }))
    }

    /// Whether the set has the word.
    pub fn contains(&self, word: u32) -> bool
        ensures { result ≡ observes self.now word }
    {
        match self.marks.get(word as usize) {
            Some(mark) => *mark,
            None => false,
        }
    }
}

/// A mark for each of this many words, none of them set.
fn no_marks(alloc: Global, words: u32) -> Result<Vec<bool>, AllocError>
    ensures all { IfOk result (λ marks. length marks.items ≡ words) }
    ensures none { IfOk result (λ marks. (word : ℕ) → observes marks.items word ≡ false) }
{
    let mut marks = Vec::new(alloc);
    marks.resize(words as usize, false)?;
    Ok(marks)
}

/// Marks the words that an item names, and returns whether it is the number of one of this many words or a range.
fn mark_item(marks: &mut Vec<bool>, item: &str, words: u32) -> bool
    requires all { length marks.old.items ≡ words }
    ensures item { MatchBool result (IsItem words item.now) (IsItem words item.now → ⊥) }
    ensures marked { result ≡ true → (word : ℕ) → (observes marks.new.items word ≡ true)
        ↔ ((observes marks.old.items word ≡ true) ⊎ Names item.now word) }
    ensures all { length marks.new.items ≡ words }
{
    match range_of(item, words) {
        Some((first, last)) => {
            mark_range(marks, first, last);
            true
        }
        None => false,
    }
}

/// Marks the words of a range.
fn mark_range(marks: &mut Vec<bool>, first: u32, last: u32)
    requires order { first ≤ last }
    requires few { last < length marks.old.items }
    ensures marked { (word : ℕ) → (observes marks.new.items word ≡ true)
        ↔ ((observes marks.old.items word ≡ true) ⊎ ((first ≤ word) × (word ≤ last))) }
    ensures all { length marks.new.items ≡ length marks.old.items }
{
    for word in first as usize..last as usize + 1 {
        marks[word] = true;
    }
}
