//! Turns of processors up to their next references.

ghost use Rattle.std.specs.Prelude.{IfErr};
ghost use Rattle.witness_traces.specs.Refusals.{IsOfSteps};

use flat_machine::Status;
use hart::{Core, Decision};
use local_memory::Code;
use machine_log::Logged;
use machine_steps::Machine;
use std::alloc::AllocError;
use steps::Step;
use witness_traces::Refused;

/// How many turns a processor takes alone before it is watched: as many as in the search.
const UNWATCHED: u32 = 1_024;

/// The lengths of the stretches, in turns, during which a processor is watched, as in the search. It spins if, within
/// a stretch, it comes back to the core with which the stretch began.
const STRETCHES: [u32; 10] = [
    1_024, 2_048, 4_096, 8_192, 16_384, 32_768, 65_536, 131_072, 262_144, 475_712,
];

/// Takes turns of each processor until it stops, is at a reference to a shared word, or is found to spin.
pub(crate) fn stand_all(log: &mut Logged) -> Result<(), Refused>
    ensures refused { IfErr result IsOfSteps }
{
    for p in 0..log.machine().config().processors() {
        stand(log, p)?;
    }
    Ok(())
}

/// Takes turns of a processor until it stops, is at a reference to a shared word, or is found to spin.
fn stand(log: &mut Logged, p: u8) -> Result<(), Refused>
    ensures refused { IfErr result IsOfSteps }
{
    for _turn in 0..UNWATCHED {
        if take_alone(log, p)? {
            return Ok(());
        }
    }
    for turns in STRETCHES {
        if watch(log, p, turns)? {
            return Ok(());
        }
    }
    Err(Refused::Missed)
}

/// Takes up to `turns` turns of a processor. Returns whether it has stopped, is at a reference, or spins, since it came
/// back to the core with which it began.
fn watch(log: &mut Logged, p: u8, turns: u32) -> Result<bool, Refused>
    ensures refused { IfErr result IsOfSteps }
{
    let start = copy_of_core(log.machine(), p)?;
    for _turn in 0..turns {
        if take_alone(log, p)? {
            return Ok(true);
        }
        if has_core(log.machine(), p, &start) {
            return Ok(true);
        }
    }
    Ok(false)
}

/// A copy of a processor's core.
fn copy_of_core(machine: &Machine, p: u8) -> Result<Option<Core>, AllocError> {
    match machine.core(p) {
        Some(core) => Ok(Some(core.copy()?)),
        None => Ok(None),
    }
}

/// Whether a processor has an equal core.
fn has_core(machine: &Machine, p: u8, other: &Option<Core>) -> bool {
    match (machine.core(p), other) {
        (Some(core), Some(other)) => core.equals(other),
        _ => false,
    }
}

/// Takes a turn of a processor, unless it has stopped or is at a reference. Returns whether it has or is.
#[tactic(auto, using(witness_traces::proofs::Lemmas::log_refuses))]
fn take_alone(log: &mut Logged, p: u8) -> Result<bool, Refused>
    ensures refused { IfErr result IsOfSteps }
{
    if is_standing(log.machine(), p) {
        return Ok(true);
    }
    match log.step(Step::Turn(p)) {
        Ok(_) => Ok(false),
        Err(refusal) => Err(Refused::from(refusal)),
    }
}

/// Whether a processor has stopped, or its next turn is a reference.
fn is_standing(machine: &Machine, p: u8) -> bool {
    let Some(core) = machine.core(p) else {
        return true;
    };
    if core.status() != Status::Running {
        return true;
    }
    let code: &Code = machine.code();
    match core.decide(code) {
        Decision::Refer { .. } => true,
        Decision::Local | Decision::Halt(_) | Decision::Fault(_) => false,
    }
}
