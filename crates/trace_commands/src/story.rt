//! What `ultra story` prints: the chosen lines of the steps of a trace.

use crate::draining::drained_steps;
use crate::telling::story_text;
use crate::trace_report::TraceReport;
use command_io::{Fault, machine_of_copy};
use elf_image::Image;
use flat_machine::Config;
use run_reports::exit_status;
use std::alloc::Global;
use steps::Step;
use trace_lines::Choice;

/// What `ultra story` prints for a trace ([`crate::choosing::lines_command`]): takes the trace's steps, and then
/// steps until no reference is open. Each chosen step has a line that says what the machine did. If rounds are wanted,
/// a line with the number of the sweep's round stands before the first chosen step of each. The exit status is 1 if a
/// fault has stopped a processor.
#[derive(Clone, Copy, Debug, Drop)]
pub struct Story {
    /// Which steps to print.
    pub choice: Choice,
    /// Whether the rounds of the sweep are marked.
    pub rounds: bool,
}

impl TraceReport for Story {
    ghost use Rattle.trace_commands.specs.Stories.{AreStoryLines};

    ghost reports = { λ story. AreStoryLines story.choice story.rounds };

    fn text(
        &self,
        alloc: Global,
        image: &Image,
        config: Config,
        steps: &[Step],
    ) -> Result<(String, u8), Fault> {
        let all = drained_steps(alloc, image, config, steps)?;
        let mut machine = machine_of_copy(alloc, image, config)?;
        let text = story_text(
            alloc,
            &mut machine,
            all.as_slice(),
            self.choice,
            self.rounds,
        )?;
        Ok((text, exit_status(&machine)))
    }
}
