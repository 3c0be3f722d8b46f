//! The steps of a trace, then those of a drain.

ghost use Rattle.std.specs.Prelude.{◌≡◌, ◌++◌, IfOk, IfErr, OnOk};
ghost use Rattle.machine_steps.specs.Machines.{MachineLists, IsIdle};
ghost use Rattle.machine_steps.specs.Draining.{drain_steps};
ghost use Rattle.machine_steps.specs.Runs.{IsReplay};
ghost use Rattle.trace_commands.specs.Causes.{IsNotTaken};
ghost use Rattle.trace_commands.specs.Explained.{IsDrainedWithSteps};

use command_io::{Fault, machine_of_copy};
use elf_image::Image;
use flat_machine::Config;
use machine_log::replay;
use machine_steps::{Machine, laws};
use std::alloc::{AllocError, Global};
use steps::Step;

/// The steps of a trace, then those of a drain, on the machine of this size that opens on the image. The image was read
/// for that number of shared words.
///
/// # Errors
///
/// [`Fault::Size`] if the size is out of limits, [`Fault::Stalled`] at the first step of the trace that stalls, and
/// [`Fault::Memory`].
pub fn drained_steps(
    alloc: Global,
    image: &Image,
    config: Config,
    steps: &[Step],
) -> Result<Vec<Step>, Fault>
    requires words { image.now.shared_words ≡ config.shared_words }
    ensures home { IfOk result (λ all. IsDrainedWithSteps config image.now steps.now all.items) }
    ensures refused { IfErr result (IsNotTaken config image.now steps.now) }
{
    let mut machine = machine_of_copy(alloc, image, config)?;
    laws::machine_is_well_formed(&machine);
    if let Err(stalled) = replay(&mut machine, steps) {
        return Err(Fault::Stalled(stalled.place));
    }
    let mut all = Vec::from_slice(alloc, steps)?;
    push_drain(&mut machine, &mut all)?;
    laws::runs_are_serialized();
    Ok(all)
}

/// Takes steps until no reference is open, as [`machine_steps::Machine::drain`] does, and appends them.
fn push_drain(machine: &mut Machine, steps: &mut Vec<Step>) -> Result<(), AllocError>
    ensures idle { OnOk result (IsIdle machine.new) }
    ensures steps { OnOk result (steps.new.items ≡ steps.old.items ++ drain_steps machine.old) }
    ensures replay { OnOk result ((opening : MachineLists) → IsReplay opening steps.old.items machine.old →
        IsReplay opening steps.new.items machine.new) }
{
    steps.reserve(machine.drain_bound() as usize)?;
    let Ok(_) = machine.drain_observed(steps);
    Ok(())
}
