//! What the processors of a machine have shown.

ghost use Rattle.std.specs.Prelude.{◌≡◌, ◌+◌, ◌<◌, ◌^◌, All, IfOk, OnOk, replicate, slice_get};
ghost use Rattle.std.specs.Option.{option_copied};
ghost use Rattle.command_io.specs.Tallies.{ShownBy, TallyState, nothing_shown, noted_after, retired_at};

use crate::shown::Shown;
use std::alloc::{AllocError, Global};
use std::marker::Model;
use steps::{Outcome, Step, StepObserver};

/// What each processor of a machine has shown in the steps noted so far.
#[derive(Debug, Drop)]
pub struct Tally {
    processors: Vec<Shown>,
    /// How many steps were noted.
    observed: u32,
}

impl Model for Tally {
    ghost use Rattle.command_io.specs.Tallies.{TallyState, AreFew};

    ghost Value = { TallyState };

    ghost view = { λ t. record { shown = t.processors.items; observed = t.observed } };

    ghost invariant = { λ t. AreFew (record { shown = t.processors.items; observed = t.observed }) };
}

impl Tally {
    /// A tally of this many processors that have shown nothing.
    ///
    /// # Errors
    ///
    /// [`AllocError`] if there is no memory for it.
    pub fn new(alloc: Global, processors: u8) -> Result<Self, AllocError>
        ensures { IfOk result (λ t. t ≡ record { shown = replicate processors nothing_shown; observed = 0 }) }
    {
        let mut shown = Vec::new(alloc);
        for _ in 0..processors {
            shown.push(Shown::new(alloc))?;
        }
        Ok(Tally {
            processors: shown,
            observed: 0,
        })
    }

    /// Counts a retired instruction of the processor at this place.
    fn retire(&mut self, place: usize, out: Option<u8>) -> Result<(), AllocError>
        requires small { self.old.observed < 2 ^ 32 }
        requires few { All (λ (s : ShownBy). s.retired < self.old.observed) self.old.shown }
        ensures shown { OnOk result (self.new ≡ record {
          shown = retired_at self.old.shown place out (slice_get self.old.shown place);
          observed = self.old.observed;
        }) }
    {
        if place >= self.processors.len() {
            return Ok(());
        }
        self.processors[place].retire(out)
    }

    /// What a processor has shown, or None if the machine has no processor of this number.
    pub fn of(&self, processor: u8) -> Option<&Shown>
        ensures { option_copied result ≡ slice_get self.now.shown processor }
    {
        self.processors.get(usize::from(processor))
    }
}

/// A tally counts fewer than 2^32 steps.
impl StepObserver for Tally {
    ghost use Rattle.std.specs.Prelude.{◌≡◌, ◌<◌, ◌+◌, ◌^◌};
    ghost use Rattle.command_io.specs.Tallies.{noted_after};

    type Refusal = AllocError;

    ghost has_room = { λ t more. t.observed + more < 2 ^ 32 };

    ghost observed = { λ old step outcome new. new ≡ noted_after old step outcome };

    /// Notes the outcome of a step.
    ///
    /// # Errors
    ///
    /// [`AllocError`] if there is no memory for a byte of the console.
    // Inlined, since it reads little of the outcome.
    #[inline(always)]
    fn observe(&mut self, step: Step, outcome: &Outcome) -> Result<(), AllocError> {
        self.observed += 1;
        match (step, *outcome) {
            (Step::Turn(p), Outcome::Retired(retired)) => {
                self.retire(usize::from(p), retired.out)
            }
            _ => Ok(()),
        }
    }
}
