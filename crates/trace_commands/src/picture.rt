//! What `ultra picture` prints: a picture of the machine after steps of a trace.

ghost use Rattle.std.specs.Prelude.{◌≡◌};
ghost use Rattle.trace_commands.specs.Pictures.{first_of};

use crate::draining::drained_steps;
use crate::drawing::picture_text;
use crate::trace_report::TraceReport;
use command_io::{Fault, machine_of_copy};
use elf_image::Image;
use flat_machine::Config;
use machine_picture::Draw;
use run_reports::exit_status;
use std::alloc::Global;
use steps::Step;

/// What `ultra picture` prints for a trace ([`crate::trace_report::trace_command`]): takes the trace's steps, and then
/// steps until no reference is open. The picture shows the machine after the first N of all these steps, or after all
/// of them if there are fewer or no number is given. The exit status is 1 if a fault has stopped a processor of the
/// machine drawn.
///
/// The drawing sees only the view of that machine ([`Draw`]).
#[derive(Clone, Copy, Debug, Drop)]
pub struct Picture<D> {
    /// How many steps to take, or None for all.
    pub step: Option<u32>,
    /// What draws the view.
    pub drawing: D,
}

impl<D: Draw> TraceReport for Picture<D> {
    ghost use Rattle.trace_commands.specs.Pictures.{draws_after};

    ghost reports = { λ picture. draws_after (D.draws picture.drawing) picture.step };

    fn text(
        &self,
        alloc: Global,
        image: &Image,
        config: Config,
        steps: &[Step],
    ) -> Result<(String, u8), Fault> {
        let all = drained_steps(alloc, image, config, steps)?;
        let mut machine = machine_of_copy(alloc, image, config)?;
        let text = picture_text(
            alloc,
            &mut machine,
            first(all.as_slice(), self.step),
            &self.drawing,
        )?;
        Ok((text, exit_status(&machine)))
    }
}

/// The first N of the steps, or all of them if no number is given.
fn first(steps: &[Step], step: Option<u32>) -> &[Step]
    ensures { result.now ≡ first_of step steps.now }
{
    match step {
        Some(count) => steps.split_at(steps.len().min(count as usize)).0,
        None => steps,
    }
}
