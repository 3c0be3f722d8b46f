//! A memory module.

ghost use Rattle.std.specs.Prelude.{◌≡◌, ◌<◌, ◌^◌, length, slice_index, slice_set, slice_get, replicate, IfOk};
ghost use Rattle.phi_algebra.specs.Functions.{apply};

use phi_algebra::Phi;
use std::alloc::{AllocError, Global};
use std::marker::Model;

/// A memory module, seen as the list of its words.
#[derive(Drop)]
pub struct Module {
    words: Vec<u32>,
}

impl Model for Module {
    ghost use Rattle.std.specs.Prelude.{ℕ, List};

    ghost Value = { List ℕ };

    ghost view = { λ m. m.words.items };
}

impl Module {
    /// A module with this many words, all zero.
    ///
    /// # Errors
    ///
    /// [`AllocError`] if there is no memory for them.
    pub fn new(alloc: Global, words: u32) -> Result<Self, AllocError>
        ensures { IfOk result (λ m. m ≡ replicate words 0) }
    {
        let mut module = Vec::with_capacity(alloc, words as usize)?;
        module.resize(words as usize, 0)?;
        Ok(Module { words: module })
    }

    /// A module with these words.
    pub fn of_words(words: Vec<u32>) -> Self
        ensures { result ≡ words.items }
    {
        Module { words }
    }

    /// Executes a request: returns the word at a place, and replaces it by the word that the
    /// function makes of it. No other place changes.
    pub fn serve(&mut self, place: u32, phi: &Phi) -> u32
        requires { place < length self.old }
        ensures old_word { result ≡ slice_index self.old place }
        ensures new_word { self.new ≡ slice_set self.old place (apply phi.now (slice_index self.old place)) }
        ensures in_range { apply phi.now (slice_index self.old place) < 2 ^ 32 }
    {
        let place = place as usize;
        let old = self.words[place];
        self.words[place] = phi.apply(old);
        old
    }

    /// The number of words in the module.
    pub fn len(&self) -> usize
        ensures { result ≡ length self.now }
    {
        self.words.len()
    }

    /// The word at a place, if there is one.
    pub fn word(&self, place: u32) -> Option<u32>
        ensures { result ≡ slice_get self.now place }
    {
        self.words.get(place as usize).copied()
    }
}
