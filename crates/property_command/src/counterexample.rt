//! Steps that lead to a state that breaks a property.

ghost use Rattle.std.specs.Prelude.{◌≡◌, map, IfErr, IfOk, IsErrOf, OnOk};
ghost use Rattle.flat_machine.specs.Limits.{IsWithinLimits};
ghost use Rattle.machine_steps.specs.Machines.{AreHome};
ghost use Rattle.machine_steps.specs.Openings.{flat_state};
ghost use Rattle.witness_traces.specs.Refusals.{IsNotTaken};
ghost use Rattle.property_command.specs.Counterexamples.{IsCounterexample, breaks_state, processor_seen};

use crate::standing::stand_all;
use command_io::Fault;
use elf_image::Image;
use exploration::words_of;
use flat_machine::Config;
use machine_log::Logged;
use machine_steps::{Machine, flat_pc, flat_processors, flat_status};
use state_conditions::{ProcessorState, Property};
use std::alloc::{AllocError, Global};
use steps::Step;
use witness_traces::{Refused, log_of, replay_round};

/// The log of a machine of this size that opens on a copy of the image, in which the processors of a way issue
/// references, one after another, so that the machine comes to break the property. Each reference is drained before the
/// next. After them each processor takes turns up to its next reference or its stop, as in the state that the search
/// found.
///
/// # Errors
///
/// [`Fault::Size`] exactly if the size is out of limits, [`Refused::Missed`] if the steps lead elsewhere,
/// [`Fault::Full`] if there would be more than [`steps::MAX_STEPS`], and [`Fault::Memory`].
#[tactic(auto, using(witness_traces::proofs::Lemmas::steps_refuse))]
pub fn counterexample_of(
    alloc: Global,
    image: &Image,
    config: Config,
    property: &Property,
    way: &[u8],
) -> Result<Logged, Refused>
    requires words { image.now.shared_words ≡ config.shared_words }
    ensures counterexample { IfOk result (λ log. IsCounterexample config image.now property.now way.now log.steps) }
    ensures refused { IfErr result (IsNotTaken config) }
    ensures size { (IsWithinLimits config → ⊥) → IsErrOf result (Refused.Fault Fault.Size) }
{
    let mut log = log_of(alloc, image, config, way, false)?;
    stand_all(&mut log)?;
    check(alloc, image, config, property, way, log.steps())?;
    Ok(log)
}

/// Checks that the steps are a counterexample with this way.
fn check(
    alloc: Global,
    image: &Image,
    config: Config,
    property: &Property,
    way: &[u8],
    steps: &[Step],
) -> Result<(), Refused>
    requires words { image.now.shared_words ≡ config.shared_words }
    ensures counterexample { OnOk result (IsCounterexample config image.now property.now way.now steps.now) }
    ensures refused { IfErr result (IsNotTaken config) }
{
    let machine = replay_round(alloc, image, config, way, steps)?;
    if is_broken(alloc, &machine, property)? {
        Ok(())
    } else {
        Err(Refused::Missed)
    }
}

/// Whether the state of a machine breaks the property.
fn is_broken(alloc: Global, machine: &Machine, property: &Property) -> Result<bool, AllocError>
    requires home { AreHome machine.now }
    ensures { IfOk result (λ is_broken. is_broken ≡ breaks_state property.now (flat_state machine.now)) }
{
    let processors = processors_of(alloc, machine)?;
    let words = words_of(alloc, machine)?;
    Ok(property.is_broken_by(processors.as_slice(), &words))
}

/// What a condition sees of the processors of a machine.
fn processors_of(alloc: Global, machine: &Machine) -> Result<Vec<ProcessorState>, AllocError>
    requires home { AreHome machine.now }
    ensures { IfOk result (λ all. all.items ≡ map processor_seen (flat_state machine.now).processors) }
{
    let mut processors = Vec::new(alloc);
    for p in 0..flat_processors(machine) {
        let Some(pc) = flat_pc(machine, p) else {
            unreachable!()
        };
        let Some(status) = flat_status(machine, p) else {
            unreachable!()
        };
        processors.push(ProcessorState { pc, status })?;
    }
    Ok(processors)
}
