//! A cache of moves, so that few of them are made twice.

ghost use Rattle.std.specs.Prelude.{◌≡◌};
ghost use Rattle.state_store.specs.TransitionCache.{IsForgotten, IsNoted, answer_to, nothing};

use indexmap::IndexMap;
use std::alloc::Global;
use std::marker::Model;

/// The largest number of answers in a cache.
pub const MAX_REMEMBERED: usize = 1_048_576;

/// Answers to questions, each of three numbers. The cache may drop answers.
#[derive(Drop)]
pub struct TransitionCache {
    answers: IndexMap<[u32; 3], u32>,
    /// The place of the answer to drop next if the cache is full.
    next: usize,
}

impl Model for TransitionCache {
    ghost use Rattle.state_store.specs.TransitionCache.{Remembered};

    ghost Value = { Remembered };

    ghost view = { λ m. record { entries = m.answers.entries } };
}

impl TransitionCache {
    /// An empty cache.
    pub fn new(alloc: Global) -> Self
        ensures { result ≡ nothing }
    {
        TransitionCache {
            answers: IndexMap::new(alloc),
            next: 0,
        }
    }

    /// The answer to a question, if the cache has it.
    pub fn get(&self, question: [u32; 3]) -> Option<u32>
        ensures { result ≡ answer_to self.now question }
    {
        self.answers.get(&question).copied()
    }

    /// Adds the answer to a question. If the cache is full, it drops another.
    pub fn remember(&mut self, question: [u32; 3], answer: u32)
        ensures { IsNoted self.old question answer self.new }
    {
        self.make_room();
        self.keep(question, answer);
    }

    /// Drops an answer if the cache is full: each place in turn, so that old answers tend to go first.
    fn make_room(&mut self)
        ensures { IsForgotten self.old self.new }
    {
        if self.answers.len() >= MAX_REMEMBERED {
            self.forget();
        }
    }

    /// Drops the answer whose turn it is.
    fn forget(&mut self)
        ensures { IsForgotten self.old self.new }
    {
        let _ = self.answers.swap_remove_index(self.next);
        self.next = self.next.wrapping_add(1) % MAX_REMEMBERED;
    }

    /// Adds the answer to a question, unless out of memory.
    fn keep(&mut self, question: [u32; 3], answer: u32)
        ensures { IsNoted self.old question answer self.new }
    {
        let _ = self.answers.insert(question, answer);
    }
}

/// The caches of a search. `local_states` maps a local state's number, a word's number and the word's old value to the
/// number of the local state after the move. `lists` maps a list's number, a word's number and the value written to the
/// number of the list after the write.
#[derive(Drop)]
pub struct TransitionCaches {
    pub local_states: TransitionCache,
    pub lists: TransitionCache,
}

impl TransitionCaches {
    /// Empty caches.
    pub fn new(alloc: Global) -> Self
        ensures { result ≡ record { local_states = nothing; lists = nothing } }
    {
        TransitionCaches {
            local_states: TransitionCache::new(alloc),
            lists: TransitionCache::new(alloc),
        }
    }
}
