//! Runs that threads take ahead, side by side.

ghost use Rattle.std.specs.Prelude.{◌≡◌, ◌≤◌, ◌<◌, [], All, IfErr, IfOk, IfSome, OnOk};
ghost use Rattle.command_io.specs.Files.{IsFaultOfSize};
ghost use Rattle.flat_machine.specs.declared.config.Config.{Config as ConfigValue};
ghost use Rattle.elf_image.specs.Images.{ImageContents};
ghost use Rattle.hunt_command.specs.declared.command.Hunt.{Hunt as HuntValue};
ghost use Rattle.hunt_command.specs.Taken.{IsResultAt, IsTaken};

use crate::command::Hunt;
use crate::runs::{RunResult, result_of};
use command_io::Fault;
use elf_image::Image;
use flat_machine::Config;
use std::alloc::{AllocError, Global};
use std::sync::atomic::{AtomicU32, Ordering};
use std::thread::{self, Threads};

/// The least number of runs for each thread in a batch, so that starting the threads takes little of the time.
const LEAST: u32 = 8;

/// The greatest number of runs for each thread in a batch, so that their results take little memory.
const MOST: u32 = 128;

/// The result of the run at a place of a hunt.
#[derive(Drop)]
pub(crate) struct Taken {
    place: u32,
    result: RunResult,
}

/// The results of a batch of runs that were taken ahead.
#[derive(Drop)]
pub(crate) struct Ahead {
    /// The results that were not asked for yet, that of the first run last.
    taken: Vec<Taken>,
    /// The place after those of the batch.
    end: u32,
}

impl Ahead {
    /// No results.
    pub(crate) fn new(alloc: Global) -> Self
        ensures { result.taken.items ≡ [] }
    {
        Ahead {
            taken: Vec::new(alloc),
            end: 0,
        }
    }

    /// The result of the run at the next place of a hunt. If the place comes after the batch, the next batch is taken
    /// first, on this many threads.
    ///
    /// # Errors
    ///
    /// [`Fault::Size`] if the size is out of limits, and [`Fault::Memory`].
    pub(crate) fn result_at<P: Threads + Sync>(
        &mut self,
        rt: &P,
        jobs: u8,
        alloc: Global,
        image: &Image,
        config: Config,
        hunt: Hunt<'_>,
        place: u32,
    ) -> Result<RunResult, Fault>
        requires words { image.now.shared_words ≡ config.shared_words }
        requires place { place < hunt.runs }
        requires ahead { All (IsTaken hunt config image.now) self.old.taken.items }
        ensures ahead { OnOk result (All (IsTaken hunt.entry config image.now) self.new.taken.items) }
        ensures result { IfOk result (IsResultAt hunt.entry config image.now place) }
        ensures refused { IfErr result (IsFaultOfSize config) }
    {
        self.reach(rt, jobs, alloc, image, config, hunt, place)?;
        match self.pop(place) {
            Some(result) => Ok(result),
            // There is one thread, or the one that took the run was out of memory.
            None => {
                let number = hunt.start.wrapping_add(place);
                result_of(alloc, image, config, hunt.policy, number, hunt.observed)
            }
        }
    }

    /// Takes the next batch of runs if a place comes after this one.
    fn reach<P: Threads + Sync>(
        &mut self,
        rt: &P,
        jobs: u8,
        alloc: Global,
        image: &Image,
        config: Config,
        hunt: Hunt<'_>,
        place: u32,
    ) -> Result<(), AllocError>
        requires words { image.now.shared_words ≡ config.shared_words }
        requires place { place < hunt.runs }
        requires ahead { All (IsTaken hunt config image.now) self.old.taken.items }
        ensures { OnOk result (All (IsTaken hunt.entry config image.now) self.new.taken.items) }
    {
        if place < self.end {
            return Ok(());
        }
        self.end = batch_end(jobs, place, hunt.runs);
        self.taken = take_batch(rt, jobs, alloc, image, config, hunt, place, self.end)?;
        Ok(())
    }

    /// The next result, if it is that of the run at this place.
    fn pop(&mut self, place: u32) -> Option<RunResult>
        ensures { (hunt : HuntValue) (c : ConfigValue) (image : ImageContents) →
            All (IsTaken hunt c image) self.old.taken.items →
            All (IsTaken hunt c image) self.new.taken.items × IfSome result (IsResultAt hunt c image place) }
    {
        match self.taken.pop() {
            Some(taken) if taken.place == place => Some(taken.result),
            _ => None,
        }
    }
}

/// The place after those of a batch. It has as many runs as were taken before, so that a hunt shows its progress early.
fn batch_end(jobs: u8, first: u32, runs: u32) -> u32
    requires { first < runs }
    ensures some { first < result }
    ensures within { result ≤ runs }
{
    let jobs = u32::from(jobs).max(1);
    first + first.clamp(jobs * LEAST, jobs * MOST).min(runs - first)
}

/// Takes the runs from one place up to another on this many threads, and returns their results, that of the first run
/// last. A single thread takes none.
fn take_batch<P: Threads + Sync>(
    rt: &P,
    jobs: u8,
    alloc: Global,
    image: &Image,
    config: Config,
    hunt: Hunt<'_>,
    first: u32,
    end: u32,
) -> Result<Vec<Taken>, AllocError>
    requires words { image.now.shared_words ≡ config.shared_words }
    requires batch { first < end }
    ensures { IfOk result (λ all. All (IsTaken hunt.entry config image.now) all.items) }
{
    let threads = u32::from(jobs).min(end - first);
    if threads < 2 {
        return Ok(Vec::new(alloc));
    }
    let next = AtomicU32::new(first);
    let work = |_: usize| -> Vec<Taken>
        requires { image.now.shared_words ≡ config.shared_words }
        ensures { All (IsTaken hunt.entry config image.entry.now) result.items }
    { take_runs(alloc, image, config, hunt, end, &next) };
    let parts = thread::map_indices(rt, alloc, threads as usize, &work)?;
    in_order(alloc, parts)
}

/// The results of all threads, that of the first run last.
fn in_order(alloc: Global, parts: Vec<Vec<Taken>>) -> Result<Vec<Taken>, AllocError>
    ensures { (hunt : HuntValue) (c : ConfigValue) (image : ImageContents) →
        All (λ part. All (IsTaken hunt c image) part.items) parts.items →
        IfOk result (λ all. All (IsTaken hunt c image) all.items) }
{
    let mut all = Vec::new(alloc);
    for part in parts {
        let mut part = part;
        all.append(&mut part)?;
    }
    all.sort_unstable_by(|one: &Taken, other: &Taken| other.place.cmp(&one.place));
    Ok(all)
}

/// Takes runs, each at the next place that no thread has taken, until none is left or one is refused.
fn take_runs(
    alloc: Global,
    image: &Image,
    config: Config,
    hunt: Hunt<'_>,
    end: u32,
    next: &AtomicU32,
) -> Vec<Taken>
    requires words { image.now.shared_words ≡ config.shared_words }
    ensures { All (IsTaken hunt.entry config image.now) result.items }
{
    let mut all = Vec::new(alloc);
    for _ in 0..end {
        let place = next.fetch_add(1, Ordering::SeqCst);
        if end <= place {
            break;
        }
        let number = hunt.start.wrapping_add(place);
        let Ok(result) = result_of(alloc, image, config, hunt.policy, number, hunt.observed) else {
            break;
        };
        let Ok(()) = all.push(Taken { place, result }) else {
            break;
        };
    }
    all
}
