//! A tally for which memory may run out while the steps go on.

ghost use Rattle.std.specs.Prelude.{◌≡◌, ◌+◌, ℕ, IfErr, IfOk, Some};
ghost use Rattle.run_reports.specs.CountedReplays.{HasRoom, IsTallied};

use command_io::{Fault, Tally};
use std::convert::Infallible;
use steps::{Outcome, Step, StepObserver};

/// What each processor of a machine has shown in the observed steps, or None since memory ran out.
#[derive(Debug, Drop)]
pub(crate) struct TallyInMemory {
    pub(crate) tally: Option<Tally>,
}

impl TallyInMemory {
    /// The tally.
    ///
    /// # Errors
    ///
    /// [`Fault::Memory`] if memory ran out.
    pub(crate) fn tally(self) -> Result<Tally, Fault>
        ensures tally { IfOk result (λ tally. self.tally ≡ Some tally) }
        ensures refused { IfErr result (λ fault. fault ≡ Fault.Memory) }
    {
        match self.tally {
            Some(tally) => Ok(tally),
            None => Err(Fault::Memory),
        }
    }
}

/// It refuses no step, so that a step that stalls is found even if memory runs out.
impl StepObserver for TallyInMemory {
    ghost use Rattle.run_reports.specs.CountedReplays.{HasRoom, IsTallied};

    type Refusal = Infallible;

    ghost has_room = { λ t more. HasRoom t.tally more };

    ghost observed = { λ old step outcome new. IsTallied old.tally step outcome new.tally };

    #[inline(always)]
    fn observe(&mut self, step: Step, outcome: &Outcome) -> Result<(), Infallible> {
        note(&mut self.tally, step, outcome);
        Ok(())
    }
}

/// Notes the outcome of a step in the tally, if there is one. If there is no memory for that, the tally is lost.
#[inline(always)]
pub(crate) fn note(tally: &mut Option<Tally>, step: Step, outcome: &Outcome)
    requires room { (more : ℕ) × HasRoom tally.old (more + 1) }
    ensures noted { IsTallied tally.old step outcome.now tally.new }
    ensures room { (more : ℕ) → HasRoom tally.old (more + 1) → HasRoom tally.new more }
{
    if let Some(counting) = tally {
        if counting.observe(step, outcome).is_err() {
            *tally = None;
        }
    }
}
