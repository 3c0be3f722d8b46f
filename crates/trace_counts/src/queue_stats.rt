//! What `ultra stats --queues` prints: the counts, and then the lengths of queues at the ends of rounds, or a table of
//! these.

ghost use Rattle.std.specs.Prelude.{◌≡◌, IfErr, IfOk, string_bytes};
ghost use Rattle.trace_commands.specs.Causes.{IsNotTaken};
ghost use Rattle.trace_counts.specs.QueueLengths.{AreQueueLines};

use crate::queue_lengths::find_queue_lengths;
use crate::stats::Stats;
use command_io::{Fault, machine_of_copy};
use elf_image::Image;
use flat_machine::Config;
use run_counts::{LengthsFormat, lengths_text};
use std::alloc::Global;
use steps::Step;
use trace_commands::{TraceReport, drained_steps};

/// What `ultra stats --queues` prints for a trace ([`trace_commands::trace_command`]): the lines of [`Stats`],
/// then a line for each round and each stage where anything waits at its end, and a line for each stage that says how
/// many rounds all waited there. The exit status is that of [`Stats`].
#[derive(Clone, Copy, Debug, Drop)]
pub struct QueueStats;

/// What `ultra stats --queues --csv` prints for a trace: a table of the same lengths. The exit status is that of
/// [`Stats`].
#[derive(Clone, Copy, Debug, Drop)]
pub struct QueueTable;

impl TraceReport for QueueStats {
    ghost use Rattle.trace_counts.specs.QueueLengths.{AreQueueStats};

    ghost reports = { λ stats. AreQueueStats };

    fn text(
        &self,
        alloc: Global,
        image: &Image,
        config: Config,
        steps: &[Step],
    ) -> Result<(String, u8), Fault> {
        let (mut text, status) = Stats.text(alloc, image, config, steps)?;
        let lines = lines_of_queues(alloc, LengthsFormat::Lines, image, config, steps)?;
        text.push_str(lines.as_str())?;
        Ok((text, status))
    }
}

impl TraceReport for QueueTable {
    ghost use Rattle.trace_counts.specs.QueueLengths.{IsQueueTable};

    ghost reports = { λ table. IsQueueTable };

    fn text(
        &self,
        alloc: Global,
        image: &Image,
        config: Config,
        steps: &[Step],
    ) -> Result<(String, u8), Fault> {
        let (_, status) = Stats.text(alloc, image, config, steps)?;
        let table = lines_of_queues(alloc, LengthsFormat::Csv, image, config, steps)?;
        Ok((table, status))
    }
}

/// The text of the lengths, from the steps of a trace and those of a drain.
// A separate function, so that neither has many values to drop at each return.
fn lines_of_queues(
    alloc: Global,
    format: LengthsFormat,
    image: &Image,
    config: Config,
    steps: &[Step],
) -> Result<String, Fault>
    requires words { image.now.shared_words ≡ config.shared_words }
    ensures lines { IfOk result (λ text. AreQueueLines format config image.now steps.now (string_bytes text)) }
    ensures refused { IfErr result (IsNotTaken config image.now steps.now) }
{
    let all = drained_steps(alloc, image, config, steps)?;
    let mut machine = machine_of_copy(alloc, image, config)?;
    let lengths = find_queue_lengths(alloc, &mut machine, all.as_slice())?;
    Ok(lengths_text(alloc, format, config.k, lengths.as_slice())?)
}
