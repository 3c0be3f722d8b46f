//! What `ultra stats --latency` prints: the counts, and then the latencies of the references.

ghost use Rattle.std.specs.Prelude.{◌≡◌, IfErr, IfOk, string_bytes};
ghost use Rattle.trace_commands.specs.Causes.{IsNotTaken};
ghost use Rattle.trace_counts.specs.Latencies.{AreLatencyLines};

use crate::latencies::find_latencies;
use crate::stats::Stats;
use command_io::{Fault, machine_of_copy};
use elf_image::Image;
use flat_machine::Config;
use run_counts::latencies_text;
use std::alloc::Global;
use steps::Step;
use trace_commands::{TraceReport, drained_steps};

/// What `ultra stats --latency` prints for a trace ([`trace_commands::trace_command`]): the lines of [`Stats`],
/// and then lines that say how many rounds references take: all, those of each processor, and those to each shared
/// word. The exit status is that of [`Stats`].
#[derive(Clone, Copy, Debug, Drop)]
pub struct LatencyStats;

impl TraceReport for LatencyStats {
    ghost use Rattle.trace_counts.specs.Latencies.{AreLatencyStats};

    ghost reports = { λ stats. AreLatencyStats };

    fn text(
        &self,
        alloc: Global,
        image: &Image,
        config: Config,
        steps: &[Step],
    ) -> Result<(String, u8), Fault> {
        let (mut text, status) = Stats.text(alloc, image, config, steps)?;
        let lines = lines_of_latencies(alloc, image, config, steps)?;
        text.push_str(lines.as_str())?;
        Ok((text, status))
    }
}

/// The lines of the latencies, from the steps of a trace and those of a drain.
// A separate function, so that neither has many values to drop at each return.
fn lines_of_latencies(
    alloc: Global,
    image: &Image,
    config: Config,
    steps: &[Step],
) -> Result<String, Fault>
    requires words { image.now.shared_words ≡ config.shared_words }
    ensures lines { IfOk result (λ text. AreLatencyLines config image.now steps.now (string_bytes text)) }
    ensures refused { IfErr result (IsNotTaken config image.now steps.now) }
{
    let all = drained_steps(alloc, image, config, steps)?;
    let mut machine = machine_of_copy(alloc, image, config)?;
    let latencies = find_latencies(alloc, &mut machine, all.as_slice())?;
    Ok(latencies_text(alloc, &latencies)?)
}
