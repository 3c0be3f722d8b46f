//! Runs of a machine: many steps, drains, and whole instructions.

ghost use Rattle.std.specs.Prelude.{◌≡◌, ◌≤◌, ◌+◌, ◌*◌, ◌↔◌, ℕ, None, IfOk, IfSome, OnOk, length};
ghost use Rattle.machine_steps.specs.Machines.{MachineLists, IsIdle, IsMachine, IsStep};
ghost use Rattle.machine_steps.specs.Draining.{drain_bound, drain_step, drain_steps, BringsNearer, IsDrained};
ghost use Rattle.machine_steps.specs.Noting.{AreNoted};
ghost use Rattle.machine_steps.specs.Runs.{IsReplay, IsRun, IsSerialized};
ghost use Rattle.machine_steps.specs.Whole.{one_steps, IsOne, IsSent};

use crate::laws;
use crate::machine::Machine;
use crate::searching::next_step;
use steps::{NoObserver, Outcome, Step, StepObserver};

impl Machine {
    /// Takes each of these steps in turn.
    pub fn run(&mut self, steps: &[Step])
        ensures run { IsRun self.old steps.now self.new }
        ensures serialized { IsIdle self.old → IsSerialized self.old steps.now self.new }
    {
        let Ok(()) = self.run_observed(steps, &mut NoObserver);
    }

    /// Takes each of these steps in turn, as [`Machine::run`] does, and reports each to the observer.
    ///
    /// # Errors
    ///
    /// The observer's own, if it refuses a step. The machine has taken that step, and those before it.
    pub fn run_observed<N: StepObserver>(
        &mut self,
        steps: &[Step],
        observer: &mut N,
    ) -> Result<(), N::Refusal>
        requires room { N.has_room observer.old (length steps.now) }
        ensures run { OnOk result (IsRun self.old steps.now self.new) }
        ensures serialized { IsIdle self.old → OnOk result (IsSerialized self.old steps.now self.new) }
        ensures observed { OnOk result (AreNoted N.observed self.old steps.now observer.old observer.new) }
    {
        laws::machine_is_well_formed(self);
        for step in steps {
            take(self, *step, observer)?;
        }
        laws::machine_is_well_formed(self);
        Ok(())
    }

    /// The step that a drain takes next. `None` if no reference is open.
    pub fn drain_step(&self) -> Option<Step>
        ensures next { result ≡ drain_step self.now }
        ensures goes_on { IfSome result (BringsNearer self.now) }
        ensures none { (result ≡ None) ↔ IsIdle self.now }
    {
        laws::machine_is_well_formed(self);
        next_step(self.network())
    }

    /// Takes the steps that [`Machine::drain_step`] names until no reference is open, and returns their number, at most
    /// `2^k * (2k + 2)`.
    pub fn drain(&mut self) -> u32
        ensures { IsDrained self.old result self.new }
    {
        let Ok(moves) = self.drain_observed(&mut NoObserver);
        moves
    }

    /// Drains the machine, as [`Machine::drain`] does, and reports each step to the observer.
    ///
    /// # Errors
    ///
    /// The observer's own, if it refuses a step. The machine has taken that step, and those before it.
    pub fn drain_observed<N: StepObserver>(&mut self, observer: &mut N) -> Result<u32, N::Refusal>
        requires room { N.has_room observer.old (drain_bound self.old.config) }
        ensures drained { IfOk result (λ moves. IsDrained self.old moves self.new) }
        ensures replay { OnOk result (IsReplay self.old (drain_steps self.old) self.new) }
        ensures observed { OnOk result (AreNoted N.observed self.old (drain_steps self.old) observer.old observer.new) }
    {
        let bound = self.drain_bound();
        Ok(drain_within(self, bound, observer)?.0)
    }

    /// The most steps that a drain takes: `2^k * (2k + 2)`.
    pub fn drain_bound(&self) -> u32
        ensures { result ≡ drain_bound self.now.config }
    {
        let config = self.config();
        let k = u32::from(config.k);
        u32::from(config.processors()) * (2 * k + 2)
    }

    /// Takes one whole instruction of a processor on a machine in which no reference is open: its turn and, if that
    /// sends a request, a drain. Returns what the instruction did, `Retired` or `Stopped`. If a reference is open, the
    /// processor does not run or the machine has none of this number, returns `Stalled` and changes nothing.
    pub fn one(&mut self, p: u8) -> Outcome
        ensures whole { IsIdle self.old → IsOne self.old p result self.new }
        ensures busy { (IsIdle self.old → ⊥) → (result ≡ Outcome.Stalled) × (self.new ≡ self.old) }
    {
        let Ok(outcome) = self.one_observed(p, &mut NoObserver);
        outcome
    }

    /// Takes one whole instruction of a processor, as [`Machine::one`] does, and reports its steps, at most `2k + 3`,
    /// to the observer.
    ///
    /// # Errors
    ///
    /// The observer's own, if it refuses a step. The machine has taken that step, and those before it.
    pub fn one_observed<N: StepObserver>(
        &mut self,
        p: u8,
        observer: &mut N,
    ) -> Result<Outcome, N::Refusal>
        requires room { N.has_room observer.old (2 * self.old.config.k + 3) }
        ensures whole { IfOk result (λ o. IsIdle self.old → IsOne self.old p o self.new) }
        ensures observed { OnOk result (IsIdle self.old →
            AreNoted N.observed self.old (one_steps self.old p) observer.old observer.new) }
        ensures few { OnOk result (IsIdle self.old → length (one_steps self.old p) ≤ 2 * self.old.config.k + 3) }
        ensures busy { IfOk result (λ o. (IsIdle self.old → ⊥) →
            (o ≡ Outcome.Stalled) × (self.new ≡ self.old) × (observer.new ≡ observer.old)) }
    {
        laws::machine_is_well_formed(self);
        if !self.is_idle() {
            return Ok(Outcome::Stalled);
        }
        let bound = 2 * u32::from(self.config().k) + 2;
        let turn = Step::Turn(p);
        let outcome = self.apply(turn);
        if outcome.is_stalled() {
            return Ok(outcome);
        }
        observer.observe(turn, &outcome)?;
        match outcome {
            Outcome::Issued => Ok(drain_within(self, bound, observer)?.1),
            whole => Ok(whole),
        }
    }
}

/// Takes steps until no reference is open, at most `bound`, and reports them to the observer. Returns their number and
/// the outcome of the last; if one processor alone had sent a request, that is its retirement.
fn drain_within<N: StepObserver>(
    machine: &mut Machine,
    bound: u32,
    observer: &mut N,
) -> Result<(u32, Outcome), N::Refusal>
    requires enough { length (drain_steps machine.old) ≤ bound }
    requires few { bound ≤ drain_bound machine.old.config }
    requires room { N.has_room observer.old bound }
    ensures drained { IfOk result (λ done. IsDrained machine.old done.0 machine.new) }
    ensures home { IfOk result (λ done. (before : MachineLists) (p : ℕ) → IsSent before p machine.old →
        IsOne before p done.1 machine.new) }
    ensures replay { OnOk result (IsReplay machine.old (drain_steps machine.old) machine.new) }
    ensures observed { OnOk result (AreNoted N.observed machine.old
        (drain_steps machine.old) observer.old observer.new) }
{
    laws::machine_is_well_formed(machine);
    let mut last = Outcome::Issued;
    for moves in 0..bound {
        let Some(step) = machine.drain_step() else {
            return Ok((moves, last));
        };
        last = take(machine, step, observer)?;
    }
    Ok((bound, last))
}

/// Takes a step, and reports it to the observer.
// Inlined, so that no outcome is copied for an observer that does not look at it.
#[inline(always)]
fn take<N: StepObserver>(
    machine: &mut Machine,
    step: Step,
    observer: &mut N,
) -> Result<Outcome, N::Refusal>
    requires room { (more : ℕ) × N.has_room observer.old (more + 1) }
    ensures step { IfOk result (λ outcome. IsStep machine.old step outcome machine.new) }
    ensures observed { IfOk result (λ outcome. N.observed observer.old step outcome observer.new) }
    ensures room { OnOk result ((more : ℕ) → N.has_room observer.old (more + 1) → N.has_room observer.new more) }
    ensures sound { IsMachine machine.new }
{
    let outcome = machine.apply(step);
    observer.observe(step, &outcome)?;
    Ok(outcome)
}
