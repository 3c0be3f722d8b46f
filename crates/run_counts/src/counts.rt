//! All counts of a run.

ghost use Rattle.std.specs.Prelude.{◌≡◌, ◌+◌, ◌<◌, ◌^◌, IfOk, length, slice_index};
ghost use Rattle.run_counts.specs.Counting.{observe};
ghost use Rattle.run_counts.specs.Counts.{counts_after, no_counts};

use crate::counters::Counters;
use crate::keys;
use std::alloc::{AllocError, Global};
use std::marker::Model;
use steps::{Outcome, Step};

/// Counts of what the observed steps did: of steps by kind, of moves by stage, of services by module, and of turns by
/// processor.
#[derive(Debug, Drop)]
pub struct Counts {
    pub(crate) kinds: Counters,
    pub(crate) turns: Counters,
    pub(crate) retired: Counters,
    pub(crate) moved: Counters,
    pub(crate) combined: Counters,
    pub(crate) returned: Counters,
    pub(crate) split: Counters,
    pub(crate) served: Counters,
    pub(crate) groups: Counters,
}

impl Model for Counts {
    ghost use Rattle.std.specs.Prelude.{◌≡◌};
    ghost use Rattle.run_counts.specs.Counts.{CountsState};

    ghost Value = { CountsState };

    ghost view = { λ c. record {
      kinds = c.kinds.counts;
      turns = c.turns.counts;
      retired = c.retired.counts;
      moved = c.moved.counts;
      combined = c.combined.counts;
      returned = c.returned.counts;
      split = c.split.counts;
      served = c.served.counts;
      groups = c.groups.counts;
      observed = c.kinds.observed;
    } };

    ghost invariant = { λ c. (c.turns.observed ≡ c.kinds.observed) × (c.retired.observed ≡ c.kinds.observed)
        × (c.moved.observed ≡ c.kinds.observed)
        × (c.combined.observed ≡ c.kinds.observed) × (c.returned.observed ≡ c.kinds.observed)
        × (c.split.observed ≡ c.kinds.observed)
        × (c.served.observed ≡ c.kinds.observed) × (c.groups.observed ≡ c.kinds.observed) };
}

impl Counts {
    /// The counts before any step, which are 0.
    ///
    /// # Errors
    ///
    /// [`AllocError`] if there is no memory for the counts.
    pub fn new(alloc: Global) -> Result<Self, AllocError>
        ensures { IfOk result (λ c. c ≡ no_counts) }
    {
        Ok(Counts {
            kinds: Counters::new(alloc, 5)?,
            turns: Counters::new(alloc, 64)?,
            retired: Counters::new(alloc, 64)?,
            moved: Counters::new(alloc, 6)?,
            combined: Counters::new(alloc, 6)?,
            returned: Counters::new(alloc, 6)?,
            split: Counters::new(alloc, 6)?,
            served: Counters::new(alloc, 64)?,
            groups: Counters::new(alloc, 4160)?,
        })
    }

    /// Observes a step and its outcome. `size` is the number of processors for which a module served.
    pub fn observe(&mut self, step: &Step, outcome: &Outcome, size: usize)
        requires { self.old.observed + 1 < 2 ^ 64 }
        ensures { self.new ≡ counts_after self.old (observe step.now outcome.now size) }
    {
        self.kinds.observe(keys::kind(step));
        self.turns.observe(keys::turn(step));
        self.retired
            .observe(keys::processor_of_retirement(step, outcome));
        self.moved.observe(keys::stage_of_move(step, outcome));
        self.combined
            .observe(keys::stage_of_combination(step, outcome));
        self.returned.observe(keys::stage_of_reply(step, outcome));
        self.split.observe(keys::stage_of_split(step, outcome));
        self.served.observe(keys::service(step));
        self.groups.observe(keys::group(step, outcome, size));
    }

    /// How many steps were observed.
    pub fn step_count(&self) -> u64
        ensures { result ≡ self.now.observed }
    {
        self.kinds.step_count()
    }

    /// How many services were observed, at all modules.
    pub fn services(&self) -> u64
        ensures { result ≡ slice_index self.now.kinds 2 }
    {
        self.kinds.at(2)
    }

    /// How many requests were combined at a stage, or 0 if there is no such stage.
    pub fn combined_at(&self, stage: u8) -> u64
        ensures { result ≡ slice_index self.now.combined stage }
    {
        self.combined.at(u16::from(stage))
    }
}
