//! What `ultra order` prints: the lines of the serial order of a trace's steps.

ghost use Rattle.std.specs.Prelude.{◌≡◌, ◌≤◌, List, IfOk, IfErr, string_bytes};
ghost use Rattle.steps.specs.declared.step.Step.{Step};
ghost use Rattle.machine_steps.specs.Machines.{MachineLists};
ghost use Rattle.machine_steps.specs.Runs.{IsOpening, passed};
ghost use Rattle.command_io.specs.Files.{IsFaultOfSize};
ghost use Rattle.trace_commands.specs.Explained.{IsDrainedWithSteps};
ghost use Rattle.trace_commands.specs.Orders.{AreOrderLines};

use crate::draining::drained_steps;
use crate::lines::order_text;
use crate::trace_report::TraceReport;
use command_io::{Fault, machine_of_copy};
use elf_image::Image;
use flat_machine::{Config, Entry};
use run_reports::exit_status;
use std::alloc::Global;
use steps::Step;
use trace_lines::Choice;

/// What `ultra order` prints for a trace ([`crate::choosing::lines_command`]): takes the trace's steps, and then
/// steps until no reference is open. One serial order of whole instructions explains all these steps. Each chosen entry
/// has a line that says what the entry does in the flat machine after all entries before it. The exit status is 1 if a
/// fault has stopped a processor.
#[derive(Clone, Copy, Debug, Drop)]
pub struct Order {
    /// Which entries to print.
    pub choice: Choice,
}

impl TraceReport for Order {
    ghost use Rattle.trace_commands.specs.Orders.{AreOrderLines};

    ghost reports = { λ order. AreOrderLines order.choice };

    fn text(
        &self,
        alloc: Global,
        image: &Image,
        config: Config,
        steps: &[Step],
    ) -> Result<(String, u8), Fault> {
        let all = drained_steps(alloc, image, config, steps)?;
        order_lines(alloc, image, config, all.as_slice(), self.choice)
    }
}

/// The chosen lines of the serial order of all these steps, on a machine of this size that opens on the image, and the
/// exit status: what an [`Order`] prints for the trace of which these are the steps and then those of a drain
/// ([`drained_steps`]). The image was read for that number of shared words.
///
/// # Errors
///
/// [`Fault::Size`] if the size is out of limits, and [`Fault::Memory`].
pub fn order_lines(
    alloc: Global,
    image: &Image,
    config: Config,
    all: &[Step],
    choice: Choice,
) -> Result<(String, u8), Fault>
    requires words { image.now.shared_words ≡ config.shared_words }
    ensures lines { IfOk result (λ done. (steps : List Step) → IsDrainedWithSteps config image.now steps all.now
        → AreOrderLines choice config image.now steps (string_bytes done.0) done.1) }
    ensures low { IfOk result (λ done. done.1 ≤ 1) }
    ensures refused { IfErr result (IsFaultOfSize config) }
{
    let entries = entries_of(alloc, image, config, all)?;
    lines_of_entries(alloc, image, config, entries.as_slice(), choice)
}

/// The serial order of these steps, on a machine of this size that opens on the image. The image was read for that
/// number of shared words.
///
/// # Errors
///
/// [`Fault::Size`] if the size is out of limits, and [`Fault::Memory`].
pub fn entries_of(
    alloc: Global,
    image: &Image,
    config: Config,
    steps: &[Step],
) -> Result<Vec<Entry>, Fault>
    requires words { image.now.shared_words ≡ config.shared_words }
    ensures order { IfOk result (λ entries. (opening : MachineLists) → IsOpening config image.now opening →
        entries.items ≡ (passed opening steps.now).order) }
    ensures refused { IfErr result (IsFaultOfSize config) }
{
    let mut machine = machine_of_copy(alloc, image, config)?;
    let Ok(entries) = machine.order(alloc, steps) else {
        return Err(Fault::Memory);
    };
    Ok(entries)
}

/// The chosen lines of these entries, one after another, on a machine of this size that opens on the image, and the
/// exit status.
// A separate function, so that neither has many values to drop at each return.
fn lines_of_entries(
    alloc: Global,
    image: &Image,
    config: Config,
    entries: &[Entry],
    choice: Choice,
) -> Result<(String, u8), Fault>
    requires words { image.now.shared_words ≡ config.shared_words }
    ensures lines { IfOk result (λ done. (steps all : List Step) → IsDrainedWithSteps config image.now steps all
        → ((opening : MachineLists) → IsOpening config image.now opening → entries.now ≡ (passed opening all).order)
        → AreOrderLines choice config image.now steps (string_bytes done.0) done.1) }
    ensures low { IfOk result (λ done. done.1 ≤ 1) }
    ensures refused { IfErr result (IsFaultOfSize config) }
{
    let mut before = machine_of_copy(alloc, image, config)?;
    let mut after = machine_of_copy(alloc, image, config)?;
    let text = order_text(alloc, &mut before, &mut after, entries, choice)?;
    Ok((text, exit_status(&before)))
}
