//! Tables of local states and of lists of words, and rows of their numbers.

ghost use Rattle.std.specs.Prelude.{◌≡◌, ◌<◌, [], length, IfOk, OnOk};
ghost use Rattle.state_store.specs.Placed.{IsSame};
ghost use Rattle.state_store.specs.StateTables.{AreDifferent, HasGrown, placed_at, words_at};

use crate::local_state::LocalState;
use crate::refusal::MoveRefusal;
use crate::saved::SavedLocalState;
use crate::sparse_words::SparseWords;
use indexmap::IndexSet;
use local_reduction::LiveTable;
use std::alloc::Global;
use std::marker::Model;

/// How many processors and shared words a machine has, and whether processors are exchanged.
#[derive(Clone, Copy, Debug, PartialEq, Eq, Drop)]
pub struct Extent {
    /// At most 64.
    pub processors: u8,
    pub shared_words: u32,
    /// Whether alike processors are exchanged. If so, all local states have the processor number 0.
    pub exchanged: bool,
}

/// A state: the number of each processor's local state, then the number of the list of words, then zeros.
pub type StateVector<const N: usize> = [u32; N];

/// Local states and lists of shared words, each with a number. The tables only grow, so a row keeps its meaning. A
/// local state takes as much memory as it needs, and its registers that are not live are not kept.
#[derive(Drop)]
pub struct StateTables {
    live: LiveTable,
    local_states: IndexSet<SavedLocalState>,
    words: IndexSet<SparseWords>,
}

impl Model for StateTables {
    ghost use Rattle.state_store.specs.StateTables.{AreLeast, TableLists};

    ghost Value = { TableLists };

    ghost view = { λ t. record {
      live = t.live;
      local_states = t.local_states.keys;
      words = t.words.keys;
    } };

    ghost invariant = { λ t. AreLeast (record {
      live = t.live;
      local_states = t.local_states.keys;
      words = t.words.keys;
    }) };
}

impl StateTables {
    /// Empty tables, whose local states are to keep the registers that are live by this table.
    pub fn new(alloc: Global, live: LiveTable) -> Self
        ensures { result ≡ record { live = live; local_states = []; words = [] } }
    {
        StateTables {
            live,
            local_states: IndexSet::new(alloc),
            words: IndexSet::new(alloc),
        }
    }

    /// The local state with a number.
    pub fn local_state(&self, number: u32) -> &SavedLocalState
        requires { number < length self.now.local_states }
        ensures { result.now ≡ placed_at self.now number }
    {
        match self.local_states.get_index(number as usize) {
            Some(local_state) => local_state,
            None => unreachable!(),
        }
    }

    /// The list of words with a number.
    pub fn words(&self, number: u32) -> &SparseWords
        requires { number < length self.now.words }
        ensures { result.now ≡ words_at self.now number }
    {
        match self.words.get_index(number as usize) {
            Some(words) => words,
            None => unreachable!(),
        }
    }

    /// Returns the number of a local state, which it adds if the table has no equal one. Registers that are not live do
    /// not count.
    ///
    /// # Errors
    ///
    /// [`MoveRefusal::Memory`].
    pub(crate) fn local_state_number(&mut self, local_state: LocalState) -> Result<u32, MoveRefusal>
        ensures kept { OnOk result (HasGrown self.old self.new) }
        ensures there { IfOk result (λ number. number < length self.new.local_states) }
        ensures same { IfOk result (λ number. IsSame self.new.live (placed_at self.new number) local_state) }
    {
        let Ok(saved) = SavedLocalState::new(local_state, &self.live) else {
            return Err(MoveRefusal::Memory);
        };
        let Ok((number, _)) = self.local_states.insert_full(saved) else {
            return Err(MoveRefusal::Memory);
        };
        match u32::try_from(number) {
            Ok(number) => Ok(number),
            Err(_) => Err(MoveRefusal::Memory),
        }
    }

    /// Returns the number of a list of words, which it adds if the list is new.
    ///
    /// # Errors
    ///
    /// [`MoveRefusal::Memory`].
    pub fn words_number(&mut self, words: SparseWords) -> Result<u32, MoveRefusal>
        ensures kept { OnOk result (HasGrown self.old self.new) }
        ensures there { IfOk result (λ number. number < length self.new.words) }
        ensures same { IfOk result (λ number. words_at self.new number ≡ words) }
    {
        let Ok((number, _)) = self.words.insert_full(words) else {
            return Err(MoveRefusal::Memory);
        };
        match u32::try_from(number) {
            Ok(number) => Ok(number),
            Err(_) => Err(MoveRefusal::Memory),
        }
    }

    /// No two local states of one setting are kept alike, and no two lists have the same words.
    pub fn are_different(&self)
        ensures { AreDifferent self.now }
    {
        let _ = (self.local_states.len(), self.words.len());
    }
}
