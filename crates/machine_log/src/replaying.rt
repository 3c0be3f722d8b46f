//! Replays the steps of a trace.

ghost use Rattle.std.specs.Prelude.{IfErr, IfOk, OnOk, length};
ghost use Rattle.machine_steps.specs.Machines.{IsIdle};
ghost use Rattle.machine_steps.specs.Noting.{AreNoted};
ghost use Rattle.machine_steps.specs.Runs.{IsReplay, IsSerialized};
ghost use Rattle.machine_log.specs.Replays.{StallsAt};

use machine_steps::{Machine, laws};
use steps::{NoObserver, Step, StepObserver};
use thiserror::Error;

/// A step of a trace stalls, so this machine did not take the trace.
#[derive(Clone, Copy, Debug, PartialEq, Eq, Drop, Error)]
#[error("X7 step {place}")]
pub struct StalledStep {
    /// The number of steps before it in the trace.
    pub place: usize,
}

/// Takes the steps of a trace, none of which may stall.
///
/// # Errors
///
/// [`StalledStep`] at the first step that stalls. The machine has taken the steps before it.
pub fn replay(machine: &mut Machine, steps: &[Step]) -> Result<(), StalledStep>
    ensures replay { OnOk result (IsReplay machine.old steps.now machine.new) }
    ensures stalled { IfErr result (λ e. StallsAt machine.old steps.now e.place machine.new) }
    ensures serialized { IsIdle machine.old → OnOk result (IsSerialized machine.old steps.now machine.new) }
{
    let Ok(replayed) = replay_observed(machine, steps, &mut NoObserver);
    replayed
}

/// Takes the steps of a trace, as [`replay`] does, and reports each to the observer. Returns what `replay` returns.
///
/// # Errors
///
/// The observer's own, if it refuses a step. The machine has taken that step, and those before it.
pub fn replay_observed<N: StepObserver>(
    machine: &mut Machine,
    steps: &[Step],
    observer: &mut N,
) -> Result<Result<(), StalledStep>, N::Refusal>
    requires room { N.has_room observer.old (length steps.now) }
    ensures replay { IfOk result (λ replayed. OnOk replayed (IsReplay machine.old steps.now machine.new)) }
    ensures stalled { IfOk result (λ replayed. IfErr replayed
        (λ e. StallsAt machine.old steps.now e.place machine.new)) }
    ensures serialized { IsIdle machine.old →
        IfOk result (λ replayed. OnOk replayed (IsSerialized machine.old steps.now machine.new)) }
    ensures observed { IfOk result (λ replayed. OnOk replayed
        (AreNoted N.observed machine.old steps.now observer.old observer.new)) }
{
    laws::machine_is_well_formed(machine);
    for (place, step) in steps.iter().enumerate() {
        let outcome = machine.apply(*step);
        if outcome.is_stalled() {
            return Ok(Err(StalledStep { place }));
        }
        observer.observe(*step, &outcome)?;
    }
    Ok(Ok(()))
}
