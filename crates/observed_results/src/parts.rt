//! The different observed parts of results.

ghost use Rattle.std.specs.Prelude.{◌≡◌, ◌+◌, ◌++◌, ◌<◌, ◌^◌, Bool, List, [], IfOk, IfSome, OnOk, length, option_map};
ghost use Rattle.std.specs.Prelude.{◌≤◌, ℕ, None, Some, bytes_eq, slice_index, slice_index_or, string_bytes};
ghost use Rattle.std.specs.List.{list_any};
ghost use Rattle.exploration.specs.local_reduction.Results.{FinalResult as ResultState};
ghost use Rattle.observed_results.specs.Lines.{heading, lines_by, observed_line, observed_of, parts_lines, with_text};
ghost use Rattle.observed_results.specs.Parts.{AreParts, HasPart, IsPartAdded, count_of};

use crate::lines::{push_closing, push_heading, push_processors};
use crate::observed::ObservedWords;
use command_io::push_shared_word;
use exploration::{FinalResult, NonzeroWord, Termination};
use indexmap::IndexSet;
use std::alloc::{AllocError, Global};
use std::marker::Model;

/// The different observed parts of results, in the order of the first result that has each. Contracts see the lines of
/// each part, and the place of the first result that has it.
#[derive(Drop)]
pub struct Parts {
    /// The lines of each part.
    texts: IndexSet<String>,
    /// The place of the first result that has it.
    firsts: Vec<usize>,
}

impl Model for Parts {
    ghost use Rattle.observed_results.specs.Parts.{PartLists, texts_of};

    ghost Value = { PartLists };

    ghost view = { λ p. record { texts = texts_of p.texts.keys; places = p.firsts.items } };
}

impl Parts {
    /// No parts.
    pub(crate) fn new(alloc: Global) -> Self
        ensures { result ≡ record { texts = []; places = [] } }
    {
        Parts {
            texts: IndexSet::new(alloc),
            firsts: Vec::new(alloc),
        }
    }

    /// The number of parts.
    pub fn count(&self) -> usize
        ensures { result ≡ length self.now.texts }
    {
        self.texts.len()
    }

    /// Whether the part at a place of other parts is one of these.
    pub(crate) fn has_part_of(&self, others: &Parts, place: usize) -> bool
        requires { place < length others.now.texts }
        ensures { result ≡ list_any (bytes_eq (slice_index_or others.now.texts place [])) self.now.texts }
    {
        let Some(part) = others.texts.get_index(place) else {
            unreachable!()
        };
        self.texts.contains(part)
    }

    /// The number of the first result that has the part of this number, both counted from 1, or 0 for 0. None if there
    /// is no such part, or the number is too great.
    pub fn first_with(&self, number: u32) -> Option<u32>
        ensures none { number ≡ 0 → result ≡ Some 0 }
        ensures missing { result ≡ None → (part : ℕ) → number ≡ part + 1 → part < length self.now.places →
            4294967295 ≤ slice_index self.now.places part }
        ensures first { IfSome result (λ first. (marks : List Bool) (results : List ResultState) →
            AreParts marks results self.now → HasPart marks results number first) }
    {
        let Some(before) = number.checked_sub(1) else {
            return Some(0);
        };
        let Some(place) = self.firsts.get(before as usize) else {
            return None;
        };
        if *place >= u32::MAX as usize {
            return None;
        }
        Some(*place as u32 + 1)
    }
}

/// The different observed parts of these results, if they are observed by these words.
///
/// # Errors
///
/// [`AllocError`] if there is no memory for them.
pub fn parts_of(
    alloc: Global,
    results: &[FinalResult],
    words: &ObservedWords,
) -> Result<Parts, AllocError>
    ensures { IfOk result (λ parts. AreParts words.now results.now parts) }
{
    let mut parts = Parts::new(alloc);
    for (place, last) in results.iter().enumerate() {
        let text = part_of(alloc, last, words)?;
        add_part(&mut parts, text, place)?;
    }
    Ok(parts)
}

/// Adds the part of the result at a place, unless it was there before.
pub(crate) fn add_part(parts: &mut Parts, text: String, place: usize) -> Result<(), AllocError>
    ensures texts { OnOk result (parts.new.texts ≡ with_text parts.old.texts (string_bytes text)) }
    ensures firsts { OnOk result (IsPartAdded parts.old.texts (string_bytes text) parts.old.places place
        parts.new.places) }
{
    let Ok((_, is_new)) = parts.texts.insert_full(text) else {
        return Err(AllocError);
    };
    if is_new {
        parts.firsts.push(place)?;
    }
    Ok(())
}

/// The observed part of a result.
pub(crate) fn part_of(
    alloc: Global,
    last: &FinalResult,
    words: &ObservedWords,
) -> Result<String, AllocError>
    ensures { IfOk result (λ text. string_bytes text ≡ observed_of words.now last.now) }
{
    let mut text = String::new(alloc);
    push_processors(alloc, &mut text, last.processors.as_slice())?;
    push_observed(alloc, &mut text, last, words)?;
    Ok(text)
}

/// Appends a line for each observed word that is not zero.
pub(crate) fn push_observed(
    alloc: Global,
    text: &mut String,
    last: &FinalResult,
    words: &ObservedWords,
) -> Result<(), AllocError>
    ensures { OnOk result (string_bytes text.new ≡ string_bytes text.old
        ++ lines_by (observed_line words.now) last.now.words (length last.now.words)) }
{
    for word in last.words.nonzero() {
        push_if_observed(alloc, text, word, words)?;
    }
    Ok(())
}

/// Appends the line of a word, if it is observed.
fn push_if_observed(
    alloc: Global,
    text: &mut String,
    word: &NonzeroWord,
    words: &ObservedWords,
) -> Result<(), AllocError>
    ensures { OnOk result (string_bytes text.new ≡ string_bytes text.old
        ++ observed_line words.now word.now.place word.now.value) }
{
    if words.contains(word.place) {
        push_shared_word(alloc, text, word.place, word.value)?;
    }
    Ok(())
}

/// The lines of parts, numbered as results, and then the lines that [`results_text`](crate::results_text) has after
/// those of results.
///
/// # Errors
///
/// [`AllocError`] if there is no memory for them.
pub fn parts_text(
    alloc: Global,
    parts: &Parts,
    classes: &[u8],
    states: usize,
    termination: Option<Termination>,
) -> Result<String, AllocError>
    ensures { IfOk result (λ text. string_bytes text
        ≡ parts_lines parts.now.texts classes.now states termination) }
{
    let mut text = String::new(alloc);
    for place in 0..parts.count() {
        push_part(&mut text, parts, place)?;
    }
    push_closing(&mut text, parts.count(), classes, states, termination)?;
    Ok(text)
}

/// Appends the lines of the part at a place.
pub(crate) fn push_part(text: &mut String, parts: &Parts, place: usize) -> Result<(), AllocError>
    requires there { place < length parts.now.texts }
    requires room { place + 1 < 2 ^ 64 }
    ensures { OnOk result (string_bytes text.new ≡ string_bytes text.old
        ++ heading place ++ slice_index_or parts.now.texts place []) }
{
    let Some(part) = parts.texts.get_index(place) else {
        unreachable!()
    };
    push_heading(text, place)?;
    text.push_str(part.as_str())?;
    Ok(())
}

/// How many results are printed: all of them, or, if words are chosen, their different observed parts.
///
/// # Errors
///
/// [`AllocError`] if there is no memory to find the parts.
pub fn count_of(
    alloc: Global,
    results: &[FinalResult],
    observed: Option<&ObservedWords>,
) -> Result<usize, AllocError>
    ensures { IfOk result (λ count. count ≡ count_of (option_map (λ words. words.now) observed.entry) results.now) }
{
    match observed {
        Some(words) => Ok(parts_of(alloc, results, words)?.count()),
        None => Ok(results.len()),
    }
}
