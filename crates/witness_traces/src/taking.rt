//! Taking steps again, on a machine that has just opened.

ghost use Rattle.std.specs.Prelude.{◌≡◌, ◌≤◌, length, IfErr, IfOk};
ghost use Rattle.witness_traces.specs.Refusals.{IsNotTaken};
ghost use Rattle.witness_traces.specs.Witnesses.{AreTaken};

use crate::refused::Refused;
use command_io::{Fault, Tally, machine_of_copy};
use elf_image::Image;
use flat_machine::Config;
use machine_steps::Machine;
use run_reports::replay_counted;
use std::alloc::Global;
use steps::Step;

/// The machine that opened on a copy of the image and took these steps, and what its processors have shown in them.
#[tactic(auto, using(crate::proofs::Refusing::size_refuses))]
pub(crate) fn replay_on_copy(
    alloc: Global,
    image: &Image,
    config: Config,
    steps: &[Step],
) -> Result<(Machine, Tally), Refused>
    requires words { image.now.shared_words ≡ config.shared_words }
    requires few { length steps.now ≤ 4194304 }
    ensures taken { IfOk result (λ done. AreTaken config image.now steps.now done.0 done.1) }
    ensures refused { IfErr result (IsNotTaken config) }
{
    let mut machine = machine_of_copy(alloc, image, config)?;
    match replay_counted(alloc, &mut machine, steps) {
        Ok(tally) => Ok((machine, tally)),
        Err(Fault::Memory) => Err(Refused::Fault(Fault::Memory)),
        Err(_) => Err(Refused::Missed),
    }
}
