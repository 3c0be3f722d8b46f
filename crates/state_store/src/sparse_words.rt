//! Lists of words that store only the words that are not zero.

ghost use Rattle.std.specs.Prelude.{◌≡◌, ℕ, ◌+◌, ◌<◌, ◌≤◌, ◌^◌, [], ◌∷◌, ◌++◌, drop, length, slice_index, slice_set};
ghost use Rattle.std.specs.Prelude.{take, IfOk, OnErr, OnOk};
ghost use Rattle.state_store.specs.SparseWords.{AreWithin, IsCut, nonzero_words, stored};

use std::alloc::{AllocError, Global};
use std::hash::{Hash, Hasher};
use std::marker::Model;

/// A word that is not zero, with its place.
#[derive(Clone, Copy, Debug, PartialEq, Eq, Hash, Drop)]
pub struct NonzeroWord {
    pub place: u32,
    pub value: u32,
}

/// A list of words. Its memory depends only on the number of words that are not zero.
#[derive(Drop)]
pub struct SparseWords {
    /// How many words the list has.
    len: u32,
    /// The words that are not zero, in the order of their places.
    nonzero: Vec<NonzeroWord>,
}

impl Model for SparseWords {
    ghost use Rattle.std.specs.Prelude.{List, ℕ};

    ghost Value = { List ℕ };

    ghost use Rattle.state_store.specs.SparseWords.{AreWithin, listed_words};

    ghost view = { λ s. listed_words s.len s.nonzero.items };

    ghost invariant = { λ s. AreWithin 0 s.len s.nonzero.items };
}

// Tables look up a list by its words. Equal lists store the same, so comparing and hashing look only at what is stored.
impl PartialEq for SparseWords {
    ghost use Rattle.std.specs.Prelude.{nat_eq};
    ghost use Rattle.std.specs.Cmp.{partial_equiv_from_equiv};
    ghost use Rattle.std.specs.Cmp.Lexicographic.{nat_list_eq_equiv, pointwise};

    ghost eq = { pointwise nat_eq };

    ghost laws = { partial_equiv_from_equiv nat_list_eq_equiv };

    fn eq(&self, other: &SparseWords) -> bool {
        self.len == other.len && self.nonzero.as_slice() == other.nonzero.as_slice()
    }
}

impl Eq for SparseWords {
    ghost use Rattle.std.specs.Cmp.Lexicographic.{nat_list_eq_equiv};

    ghost laws = { nat_list_eq_equiv };
}

impl Hash for SparseWords {
    ghost use Rattle.state_store.specs.SparseWordLaws.{hashed, hashed_alike};

    ghost hash_input = { hashed };

    ghost respects_eq = { hashed_alike };

    fn hash<H: Hasher>(&self, state: &mut H) {
        self.nonzero.as_slice().hash(state);
    }
}

impl SparseWords {
    /// An empty list.
    pub fn new(alloc: Global) -> Self
        ensures { result ≡ [] }
    {
        SparseWords {
            len: 0,
            nonzero: Vec::new(alloc),
        }
    }

    /// How many words the list has.
    pub fn len(&self) -> u32
        ensures { result ≡ length self.now }
    {
        self.len
    }

    /// The word at a place, or 0 past the end.
    pub fn get(&self, place: u32) -> u32
        ensures word { result ≡ slice_index self.now place }
        ensures small { result < 2 ^ 32 }
    {
        let nonzero = self.nonzero.as_slice();
        match nonzero.split_at(first_from(nonzero, place)).1 {
            [word, ..] if word.place == place => word.value,
            _ => 0,
        }
    }

    /// The words that are not zero, in the order of their places.
    pub fn nonzero(&self) -> &[NonzeroWord]
        ensures { result.now ≡ nonzero_words self.now }
    {
        self.nonzero.as_slice()
    }

    /// Appends a word.
    ///
    /// # Errors
    ///
    /// [`AllocError`] if there is no memory. The list is unchanged then.
    pub fn push(&mut self, value: u32) -> Result<(), AllocError>
        requires { length self.old + 1 < 2 ^ 32 }
        ensures pushed { OnOk result (self.new ≡ self.old ++ value ∷ []) }
        ensures unchanged { OnErr result (self.new ≡ self.old) }
    {
        store(&mut self.nonzero, self.len, value)?;
        self.len += 1;
        Ok(())
    }

    /// Returns an equal list.
    pub fn copy(&self) -> Result<Self, AllocError>
        ensures { IfOk result (λ words. words ≡ self.now) }
    {
        Ok(SparseWords {
            len: self.len,
            nonzero: self.nonzero.clone()?,
        })
    }

    /// Returns a copy of the list with one word replaced.
    pub fn with_word(&self, place: u32, value: u32) -> Result<Self, AllocError>
        requires { place < length self.now }
        ensures { IfOk result (λ words. words ≡ slice_set self.now place value) }
    {
        let (before, after) = around(self.nonzero.as_slice(), place);
        let alloc = *self.nonzero.allocator();
        let nonzero = join(alloc, before, place, value, after)?;
        Ok(SparseWords {
            len: self.len,
            nonzero,
        })
    }
}

/// The stored words before a place, and those after it.
fn around(nonzero: &[NonzeroWord], place: u32) -> (&[NonzeroWord], &[NonzeroWord])
    ensures { (to : ℕ) → place < to → AreWithin 0 to nonzero.now
        → IsCut place to nonzero.now result.0.now result.1.now }
{
    let (before, rest) = nonzero.split_at(first_from(nonzero, place));
    match rest {
        [word, after @ ..] if word.place == place => (before, after),
        _ => (before, rest),
    }
}

/// The number of stored words before a place.
fn first_from(nonzero: &[NonzeroWord], place: u32) -> usize
    ensures there { result ≤ length nonzero.now }
    ensures before { (to : ℕ) → place ≤ to → AreWithin 0 to nonzero.now → AreWithin 0 place (take result nonzero.now) }
    ensures rest { (to : ℕ) → place ≤ to → AreWithin 0 to nonzero.now → AreWithin place to (drop result nonzero.now) }
{
    nonzero.partition_point(|word| word.place < place)
}

/// Joins the stored words before and after a place with a word at that place.
fn join(
    alloc: Global,
    before: &[NonzeroWord],
    place: u32,
    value: u32,
    after: &[NonzeroWord],
) -> Result<Vec<NonzeroWord>, AllocError>
    ensures { IfOk result (λ all. all.items ≡ before.now ++ stored place value ++ after.now) }
{
    let between = usize::from(value != 0);
    let mut all = Vec::with_capacity(alloc, before.len() + between + after.len())?;
    all.extend_from_slice(before)?;
    store(&mut all, place, value)?;
    all.extend_from_slice(after)?;
    Ok(all)
}

/// Appends a word unless it is zero.
fn store(nonzero: &mut Vec<NonzeroWord>, place: u32, value: u32) -> Result<(), AllocError>
    ensures stored { OnOk result (nonzero.new.items ≡ nonzero.old.items ++ stored place value) }
    ensures unchanged { OnErr result (nonzero.new.items ≡ nonzero.old.items) }
{
    if value == 0 {
        return Ok(());
    }
    nonzero.push(NonzeroWord { place, value })?;
    Ok(())
}
