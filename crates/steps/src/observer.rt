//! Observers of the steps that a machine takes.

ghost use Rattle.std.specs.Prelude.{◌≡◌, ◌≤◌, ◌+◌, ◌++◌, ◌∷◌, [], ℕ, OnOk, length};

use crate::step::{Outcome, Step};
use std::convert::Infallible;

/// An observer of the steps that a machine takes: a log, a tally, or [`NoObserver`].
pub trait StepObserver {
    ghost use Rattle.std.specs.Prelude.{ℕ};
    ghost use Rattle.steps.specs.declared.step.Step.{Step};
    ghost use Rattle.steps.specs.declared.step.Outcome.{Outcome};

    /// Why the observer refused a step.
    type Refusal;

    /// The observer has room for this many steps.
    ghost has_room: { Self → ℕ → Type 0 };

    /// How a step and its outcome change the observer.
    ghost observed: { Self → Step → Outcome → Self → Type 0 };

    /// Observes a step that the machine has just taken, and its outcome.
    ///
    /// # Errors
    ///
    /// The observer's own, if it refuses the step.
    fn observe(&mut self, step: Step, outcome: &Outcome) -> Result<(), Self::Refusal>
        requires room { (more : ℕ) × Self.has_room self.old (more + 1) }
        ensures observed { OnOk result (Self.observed self.old step outcome.now self.new) }
        ensures room { OnOk result ((more : ℕ) → Self.has_room self.old (more + 1) → Self.has_room self.new more) };
}

/// An observer that keeps nothing.
#[derive(Drop)]
pub struct NoObserver;

impl StepObserver for NoObserver {
    type Refusal = Infallible;

    ghost has_room = { λ nobody more. Unit {0} };

    ghost observed = { λ old step outcome new. Unit {0} };

    #[inline(always)]
    fn observe(&mut self, _step: Step, _outcome: &Outcome) -> Result<(), Infallible> {
        Ok(())
    }
}

/// A list has room up to its capacity, and appends each step.
impl StepObserver for Vec<Step> {
    ghost use Rattle.std.specs.Prelude.{◌≤◌, ◌+◌, length};
    ghost use Rattle.std.specs.Vec.{vec_capacity};
    ghost use Rattle.steps.specs.StepObserver.{IsListed};

    type Refusal = Infallible;

    ghost has_room = { λ list more. length list.items + more ≤ vec_capacity list };

    ghost observed = { λ old step outcome new. IsListed old.items (vec_capacity old) step new.items
        (vec_capacity new) };

    #[inline(always)]
    fn observe(&mut self, step: Step, _outcome: &Outcome) -> Result<(), Infallible> {
        self.push_reserved(step);
        Ok(())
    }
}
