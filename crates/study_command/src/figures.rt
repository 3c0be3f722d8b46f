//! The figures of the steps of a run.

ghost use Rattle.std.specs.Prelude.{◌≡◌, IfErr, IfOk, slice_index};
ghost use Rattle.command_io.specs.Files.{IsFaultOfSize};
ghost use Rattle.run_counts.specs.Longest.{at_stage};
ghost use Rattle.trace_counts.specs.Longest.{most_of};
ghost use Rattle.trace_counts.specs.QueueLengths.{total_of};
ghost use Rattle.study_command.specs.Rows.{AreCounted, AreFigures, AreLatencies, figures_of};

use command_io::{Fault, machine_of_copy};
use elf_image::Image;
use flat_machine::Config;
use run_counts::{Counts, Held, Latencies, Longest, mean_of, rounds_of};
use std::alloc::{AllocError, Global};
use steps::Step;
use study_rows::Figures;
use trace_counts::{count_steps, find_latencies};

/// What steps come to, on the machine of this size that opens on the image. The image was read for that number of
/// shared words.
///
/// # Errors
///
/// [`Fault::Size`] if the size is out of limits, else [`Fault::Memory`].
pub(crate) fn figures_of(
    alloc: Global,
    image: &Image,
    config: Config,
    steps: &[Step],
) -> Result<Figures, Fault>
    requires words { image.now.shared_words ≡ config.shared_words }
    ensures figures { IfOk result (AreFigures config image.now steps.now) }
    ensures refused { IfErr result (IsFaultOfSize config) }
{
    let (counts, longest) = count_run(alloc, image, config, steps)?;
    let latencies = time_run(alloc, image, config, steps)?;
    let rounds = rounds_of(steps);
    Ok(figures_from(&counts, &longest, rounds, latencies.of_all(), config.k)?)
}

/// The counts of steps, and the longest queues.
fn count_run(
    alloc: Global,
    image: &Image,
    config: Config,
    steps: &[Step],
) -> Result<(Counts, Longest), Fault>
    requires words { image.now.shared_words ≡ config.shared_words }
    ensures counted { IfOk result (λ found. AreCounted config image.now steps.now found.0 found.1) }
    ensures refused { IfErr result (IsFaultOfSize config) }
{
    let mut machine = machine_of_copy(alloc, image, config)?;
    let (counts, longest) = count_steps(alloc, &mut machine, steps)?;
    Ok((counts, longest))
}

/// The latencies of the references of steps.
fn time_run(
    alloc: Global,
    image: &Image,
    config: Config,
    steps: &[Step],
) -> Result<Latencies, Fault>
    requires words { image.now.shared_words ≡ config.shared_words }
    ensures timed { IfOk result (λ found. AreLatencies config image.now steps.now found.all) }
    ensures refused { IfErr result (IsFaultOfSize config) }
{
    let mut machine = machine_of_copy(alloc, image, config)?;
    let latencies = find_latencies(alloc, &mut machine, steps)?;
    Ok(latencies)
}

/// What counts, longest queues, rounds and latencies come to, on a network with `k` stages.
fn figures_from(
    counts: &Counts,
    longest: &Longest,
    rounds: usize,
    latencies: &[usize],
    k: u8,
) -> Result<Figures, AllocError>
    ensures { IfOk result (λ f. f ≡ figures_of k counts.now longest.now rounds latencies.now) }
{
    let combined = combined_in(counts, k)?;
    let mean = mean_of(latencies)?;
    Ok(Figures {
        steps: counts.step_count(),
        rounds,
        references: latencies.len(),
        serve: counts.services(),
        combined,
        requests: longest_of(longest, Held::Requests, k),
        records: longest_of(longest, Held::Records, k),
        replies: longest_of(longest, Held::Replies, k),
        mean,
    })
}

/// How many requests the first stages combined. A sum out of range, which no memory can hold, is refused as out of
/// memory.
fn combined_in(counts: &Counts, stages: u8) -> Result<u64, AllocError>
    ensures { IfOk result (λ total. total ≡ total_of (slice_index counts.now.combined) stages) }
{
    let mut total: u64 = 0;
    for stage in 0..stages {
        match total.checked_add(counts.combined_at(stage)) {
            Some(sum) => total = sum,
            None => return Err(AllocError),
        }
    }
    Ok(total)
}

/// The most that one list of the first stages held at once.
fn longest_of(longest: &Longest, held: Held, stages: u8) -> usize
    ensures { result ≡ most_of (at_stage longest.now held) stages 0 }
{
    let mut most: usize = 0;
    for stage in 0..stages {
        most = most.max(longest.at(held, stage));
    }
    most
}
