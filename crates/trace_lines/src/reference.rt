//! What an entry does to a shared word.

/// A shared word that an entry acts on.
#[derive(Clone, Copy, Debug, PartialEq, Eq, Drop)]
pub struct Reference {
    /// The word's number, from 0.
    pub word: u32,
    /// Its value before the entry.
    pub before: u32,
    /// Its value after the entry.
    pub after: u32,
}
