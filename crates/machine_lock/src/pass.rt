//! What one processor's thread holds.

ghost use Rattle.std.specs.Prelude.{◌≡◌, is_some};

use crate::row::{Answer, PassEvent, PassState};
use crate::run::Run;
use crate::stored::PassStateVec;
use ghost_map::Fragment;
use std::marker::Model;

/// The pass of one processor: its retirements and its stop, how many steps the calls with it have entered, and their
/// last answer. Contracts see it as the processor's number and this row, which is the row that is known under the
/// lock. While the core is lent, there is room for what it may retire.
#[derive(Drop)]
pub struct Pass<N: Run> {
    pub(crate) processor: u8,
    pub(crate) stored: PassStateVec,
    pub(crate) fragment: Fragment<PassState, N>,
}

impl<N: Run> Model for Pass<N> {
    ghost use Rattle.std.specs.Prelude.{◌≡◌, ◌≤◌, ◌+◌, ℕ, [], ◌∷◌, Some, vec_len, vec_capacity};
    ghost use Rattle.machine_lock.specs.Passes.{Held, held, row_of};

    ghost Value = { Held };

    ghost view = { λ p. held p.processor (row_of p.stored) };

    ghost invariant = { λ p. (p.fragment ≡ (p.processor, row_of p.stored) ∷ [])
        × ((most : ℕ) → p.stored.lent ≡ Some most →
        vec_len p.stored.pass_events + most ≤ vec_capacity p.stored.pass_events) };
}

impl<N: Run> Pass<N> {
    /// Makes room for what this many turns can give, if there is memory for it, so that none is allocated for it under
    /// the lock.
    pub(crate) fn make_room(&mut self, turns: usize)
        ensures { self.new ≡ self.old }
    {
        self.stored.make_room(turns);
    }

    /// Does the same, and has the system provide that memory now, and not under the lock.
    pub(crate) fn make_warm_room(&mut self, turns: usize)
        ensures { self.new ≡ self.old }
    {
        self.stored.make_warm_room(turns);
    }

    /// Whether the core of its processor is lent.
    pub fn is_lent(&self) -> bool
        ensures { result ≡ is_some self.now.row.lent }
    {
        self.stored.lent.is_some()
    }

    /// The number of its processor.
    pub fn processor(&self) -> u8
        ensures { result ≡ self.now.processor }
    {
        self.processor
    }

    /// The processor's retirements and its stop, in order, each with its place in the log.
    pub fn pass_events(&self) -> &[PassEvent]
        ensures { result.now ≡ self.now.row.pass_events }
    {
        self.stored.pass_events.as_slice()
    }

    /// How many steps the calls with this pass have entered.
    pub fn steps(&self) -> u32
        ensures { result ≡ self.now.row.steps }
    {
        self.stored.steps
    }

    /// The last answer to a call with this pass. None before the first; a refusal is no answer.
    pub fn last(&self) -> Option<Answer>
        ensures { result ≡ self.now.row.last }
    {
        self.stored.last
    }
}
