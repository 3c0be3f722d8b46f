//! The successors of states.

ghost use Rattle.std.specs.Prelude.{◌≡◌, ◌≤◌, [], ◌∷◌, ◌++◌, length, slice_index, OnErr, OnOk};
ghost use Rattle.state_graph.specs.Ranks.{successors_at};

use std::alloc::{AllocError, Global};
use std::marker::Model;

/// The successors of each state, in the order of the states.
#[derive(Drop)]
pub struct Successors {
    /// The successors of all states, one list after another.
    targets: Vec<u32>,
    /// The end of each state's list.
    ends: Vec<usize>,
}

impl Model for Successors {
    ghost use Rattle.std.specs.Prelude.{List, ℕ, length};
    ghost use Rattle.state_graph.specs.Cutting.{AreEnds, cut};

    ghost Value = { List (List ℕ) };

    ghost view = { λ s. cut 0 s.ends.items s.targets.items };

    ghost invariant = { λ s. AreEnds 0 s.ends.items (length s.targets.items) };
}

impl Successors {
    /// The successors of no states.
    pub fn new(alloc: Global) -> Self
        ensures { result ≡ [] }
    {
        Successors {
            targets: Vec::new(alloc),
            ends: Vec::new(alloc),
        }
    }

    /// The number of states.
    pub fn len(&self) -> usize
        ensures { result ≡ length self.now }
    {
        self.ends.len()
    }

    /// The successors of a state, or none if there is no such state.
    pub fn of(&self, state: usize) -> &[u32]
        ensures { result.now ≡ successors_at self.now state }
    {
        let Some(end) = self.ends.get(state) else {
            return &[];
        };
        let start = start_of(self.ends.as_slice(), state);
        &self.targets[start..*end]
    }

    /// Appends a state with these successors.
    ///
    /// # Errors
    ///
    /// [`AllocError`] if there is no memory for them. Then no state is added.
    pub fn push(&mut self, successors: &[u32]) -> Result<(), AllocError>
        ensures added { OnOk result (self.new ≡ self.old ++ successors.now ∷ []) }
        ensures kept { OnErr result (self.new ≡ self.old) }
    {
        // With this room the push of the end succeeds, so an error leaves all lists as they are.
        self.ends.reserve(1)?;
        self.targets.extend_from_slice(successors)?;
        self.ends.push(self.targets.len())?;
        Ok(())
    }
}

/// The start of a state's list.
fn start_of(ends: &[usize], state: usize) -> usize
    requires { state ≤ length ends.now }
    ensures { result ≡ slice_index (0 ∷ ends.now) state }
{
    if state == 0 { 0 } else { ends[state - 1] }
}
