//! What `ultra stats` prints: counts of what the steps of a trace did.

ghost use Rattle.std.specs.Prelude.{◌≡◌, ◌++◌, IfOk, string_bytes};
ghost use Rattle.trace_commands.specs.SizeLines.{size_line};

use crate::counting::count_steps;
use command_io::{Fault, machine_of_copy};
use elf_image::Image;
use flat_machine::Config;
use run_counts::{counts_text, rounds_of};
use run_reports::exit_status;
use std::alloc::{AllocError, Global};
use steps::Step;
use trace_commands::{TraceReport, drained_steps, push_size};

/// What `ultra stats` prints for a trace ([`trace_commands::trace_command`]): takes the trace's steps, and then
/// steps until no reference is open. The first line is the machine's size; the others count what all these steps did.
/// The exit status is 1 if a fault has stopped a processor.
#[derive(Clone, Copy, Debug, Drop)]
pub struct Stats;

impl TraceReport for Stats {
    ghost use Rattle.trace_counts.specs.Stats.{AreStatsLines};

    ghost reports = { λ stats. AreStatsLines };

    fn text(
        &self,
        alloc: Global,
        image: &Image,
        config: Config,
        steps: &[Step],
    ) -> Result<(String, u8), Fault> {
        let all = drained_steps(alloc, image, config, steps)?;
        let mut machine = machine_of_copy(alloc, image, config)?;
        let (counts, longest) = count_steps(alloc, &mut machine, all.as_slice())?;
        let k = machine.config().k;
        let rounds = rounds_of(all.as_slice());
        let counted = counts_text(alloc, &counts, &longest, rounds, k)?;
        let text = below_size(alloc, config, counted.as_str())?;
        Ok((text, exit_status(&machine)))
    }
}

/// Lines below the line of a machine's size.
fn below_size(alloc: Global, config: Config, lines: &str) -> Result<String, AllocError>
    ensures { IfOk result (λ text. string_bytes text ≡ size_line config ++ lines.now) }
{
    let mut text = String::new(alloc);
    push_size(&mut text, config)?;
    text.push_str(lines)?;
    Ok(text)
}
