//! Steps taken on a machine, and what its processors show in them.

ghost use Rattle.std.specs.Prelude.{◌≡◌, ◌≤◌, ◌++◌, ℕ, List, IfOk, IfErr, OnOk, length};
ghost use Rattle.flat_machine.specs.declared.event.Event.{Event};
ghost use Rattle.steps.specs.declared.step.Step.{Step};
ghost use Rattle.machine_steps.specs.Machines.{machine_of, MachineLists, IsIdle, IsStep};
ghost use Rattle.machine_steps.specs.Draining.{drain_bound, drain_steps};
ghost use Rattle.machine_log.specs.Logs.{entered};
ghost use Rattle.run_reports.specs.CountedReplays.{HasRoom, IsNotRetaken, IsReplayCounted, IsTallied};
ghost use Rattle.run_reports.specs.InMemory.{IsReplayInMemory};

use crate::tally_in_memory::{TallyInMemory, note};
use command_io::{Fault, Tally};
use machine_log::replay_observed;
use machine_steps::{Machine, laws};
use std::alloc::{AllocError, Global};
use steps::{Outcome, Step};

/// Takes these steps, and returns what each processor has shown in them.
///
/// # Errors
///
/// [`Fault::Stalled`] exactly if a step stalls, at the first that does; then the machine has taken the steps before it.
/// [`Fault::Memory`] if there is no memory for the tally; then the machine has taken all steps.
pub fn replay_counted(alloc: Global, machine: &mut Machine, steps: &[Step]) -> Result<Tally, Fault>
    requires { length steps.now ≤ 4194304 }
    ensures taken { IfOk result (λ tally. IsReplayCounted machine.old steps.now machine.new tally) }
    ensures refused { IfErr result (IsNotRetaken machine.old steps.now machine.new) }
{
    let tally = Tally::new(alloc, machine.config().processors());
    let mut counting = TallyInMemory { tally: tally.ok() };
    let Ok(replayed) = replay_observed(machine, steps, &mut counting);
    if let Err(stalled) = replayed {
        return Err(Fault::Stalled(stalled.place));
    }
    counting.tally()
}

/// Takes steps until no reference is open, as [`machine_steps::Machine::drain`] does, and notes the outcome of each.
///
/// # Errors
///
/// [`AllocError`] if there is no memory for a byte of the console.
pub fn drain_counted(machine: &mut Machine, tally: &mut Tally) -> Result<(), AllocError>
    requires { tally.old.observed ≤ 4194304 }
    ensures idle { OnOk result (IsIdle machine.new) }
    ensures taken { OnOk result ((opening : MachineLists) (steps : List Step) →
        IsReplayCounted opening steps machine.old tally.old →
        IsReplayCounted opening (steps ++ drain_steps machine.old) machine.new tally.new) }
{
    laws::machine_is_well_formed(machine);
    machine.drain_observed(tally)?;
    Ok(())
}

/// Takes a step, and notes its outcome in the tally, if there is one, unless the step stalls. If there is no memory for
/// that, the tally is lost.
#[inline(always)]
pub fn step_tallied(machine: &mut Machine, tally: &mut Option<Tally>, step: Step) -> Outcome
    requires { HasRoom tally.old 1 }
    ensures step { IsStep machine.old step result machine.new }
    ensures stalled { result ≡ Outcome.Stalled → (shown : ℕ → List Event) →
        machine_of machine.new shown ≡ machine_of machine.old shown }
    ensures kept { result ≡ Outcome.Stalled → tally.new ≡ tally.old }
    ensures noted { (result ≡ Outcome.Stalled → ⊥) → IsTallied tally.old step result tally.new }
    ensures counted { (opening : MachineLists) (steps : List Step) →
        IsReplayInMemory opening steps machine.old tally.old →
        IsReplayInMemory opening (entered steps step result) machine.new tally.new }
{
    let outcome = machine.apply(step);
    if !outcome.is_stalled() {
        note(tally, step, &outcome);
    }
    outcome
}

/// Takes steps until no reference is open, as [`machine_steps::Machine::drain`] does, and notes the outcome of each in
/// the tally, if there is one. If there is no memory for that, the tally is lost.
pub fn drain_tallied(machine: &mut Machine, tally: Option<Tally>) -> Option<Tally>
    requires { HasRoom tally (drain_bound machine.old.config) }
    ensures idle { IsIdle machine.new }
    ensures counted { (opening : MachineLists) (steps : List Step) →
        IsReplayInMemory opening steps machine.old tally →
        IsReplayInMemory opening (steps ++ drain_steps machine.old) machine.new result }
{
    let mut counting = TallyInMemory { tally };
    let Ok(_) = machine.drain_observed(&mut counting);
    counting.tally
}
