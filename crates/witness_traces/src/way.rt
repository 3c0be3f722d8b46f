//! The log of a way: references of processors, one after another, each after what its processor does alone before it.

ghost use Rattle.std.specs.Prelude.{◌≡◌, IfErr, IsErrOf};
ghost use Rattle.flat_machine.specs.Limits.{IsWithinLimits};
ghost use Rattle.witness_traces.specs.Refusals.{IsNotTaken, IsOfSteps};

use crate::refused::Refused;
use command_io::{Fault, machine_of_copy};
use elf_image::Image;
use flat_machine::Config;
use machine_log::Logged;
use std::alloc::Global;
use steps::{Outcome, Step};

/// How many turns a processor may take to reach its next reference or its stop: as many as in the search.
const MAX_TURNS: u32 = 1_000_000;

/// The log of a way, on a machine of this size that opens on a copy of the image. Each reference is drained before the
/// next. If the way is to end in a result, each processor then takes turns until it stops.
///
/// # Errors
///
/// [`Fault::Size`] exactly if the size is out of limits, [`Refused::Missed`] if a processor of the way stops, or takes
/// 1,000,000 turns, before it sends a reference, [`Fault::Full`] if there would be more than [`steps::MAX_STEPS`]
/// steps, and [`Fault::Memory`].
#[tactic(auto, using(crate::proofs::Refusing::size_refuses, crate::proofs::Refusing::steps_refuse))]
pub fn log_of(
    alloc: Global,
    image: &Image,
    config: Config,
    way: &[u8],
    is_to_end: bool,
) -> Result<Logged, Refused>
    requires words { image.now.shared_words ≡ config.shared_words }
    ensures refused { IfErr result (IsNotTaken config) }
    ensures size { (IsWithinLimits config → ⊥) → IsErrOf result (Refused.Fault Fault.Size) }
{
    let mut log = Logged::new(alloc, machine_of_copy(alloc, image, config)?);
    for p in way {
        refer(&mut log, *p)?;
    }
    if is_to_end {
        stop_all(&mut log)?;
    }
    Ok(log)
}

/// The result of a processor's turn.
#[derive(Clone, Copy, Debug, PartialEq, Eq, Drop)]
enum Turned {
    /// An instruction has retired.
    On,
    /// The processor has sent a request.
    Sent,
    /// The processor has stopped, now or before.
    Stopped,
}

/// Takes a turn of a processor.
#[tactic(auto, using(crate::proofs::Refusing::log_refuses))]
fn turn(log: &mut Logged, p: u8) -> Result<Turned, Refused>
    ensures refused { IfErr result IsOfSteps }
{
    match log.step(Step::Turn(p)) {
        Ok(Outcome::Retired(_)) => Ok(Turned::On),
        Ok(Outcome::Issued) => Ok(Turned::Sent),
        Ok(_) => Ok(Turned::Stopped),
        Err(refusal) => Err(Refused::from(refusal)),
    }
}

/// Takes steps until no reference is open.
#[tactic(auto, using(crate::proofs::Refusing::log_refuses))]
fn drain_within(log: &mut Logged) -> Result<(), Refused>
    ensures refused { IfErr result IsOfSteps }
{
    match log.drain() {
        Ok(_) => Ok(()),
        Err(refusal) => Err(Refused::from(refusal)),
    }
}

/// Takes turns of a processor up to its next reference, and then steps until the reference retires.
fn refer(log: &mut Logged, p: u8) -> Result<(), Refused>
    ensures refused { IfErr result IsOfSteps }
{
    for _turn in 0..MAX_TURNS {
        match turn(log, p)? {
            Turned::On => {}
            Turned::Sent => return drain_within(log),
            Turned::Stopped => return Err(Refused::Missed),
        }
    }
    Err(Refused::Missed)
}

/// Takes turns of each processor until it stops.
fn stop_all(log: &mut Logged) -> Result<(), Refused>
    ensures refused { IfErr result IsOfSteps }
{
    for p in 0..log.machine().config().processors() {
        stop(log, p)?;
    }
    Ok(())
}

/// Takes turns of a processor until it stops.
fn stop(log: &mut Logged, p: u8) -> Result<(), Refused>
    ensures refused { IfErr result IsOfSteps }
{
    for _turn in 0..MAX_TURNS {
        match turn(log, p)? {
            Turned::On => {}
            Turned::Sent => return Err(Refused::Missed),
            Turned::Stopped => return Ok(()),
        }
    }
    Err(Refused::Missed)
}
