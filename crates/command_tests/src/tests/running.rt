//! The commands `run` and `replay`, from the bytes of files to the bytes of a report. Images are assembled from texts,
//! and reports are worked out by hand from the RISC-V manual and the schedule.

mod devices;
mod ends;
mod memory;
mod replays;
mod reports;
mod unlogged;

use flat_machine::Config;
use link::Meter;
use run_command::run_command;
use std::alloc::Global;
use std::io;
use std::test::Fail;
use test_support::{image_of, metered};
use trace_commands::replay_command;

/// A budget that no program here uses up, unless it has no end.
const AMPLE: u32 = 200_000;

/// The outcome of a command.
#[derive(Drop)]
struct Ran {
    status: u8,
    out: Vec<u8>,
    err: Vec<u8>,
    /// The trace, if one was asked for.
    trace: Vec<u8>,
}

/// Runs an image, with a trace. A run that its budget ends is not reported.
fn run(alloc: Global, image: &[u8], config: Config, budget: u32) -> Ran {
    run_to(alloc, image, config, budget, false)
}

/// Runs an image, with a trace. `unfinished` says whether a run that its budget ends is reported, too.
fn run_to(alloc: Global, image: &[u8], config: Config, budget: u32, unfinished: bool) -> Ran {
    let mut out = Meter::new(Vec::new(alloc));
    let mut err = Vec::new(alloc);
    let mut trace = Some(Meter::new(Vec::new(alloc)));
    let image = &mut Meter::new(image);
    let status = run_command(
        alloc, image, config, budget, unfinished, &mut trace, &mut out, &mut err,
    );
    let trace = match trace {
        Some(trace) => trace.device,
        None => Vec::new(alloc),
    };
    Ran {
        status,
        out: out.device,
        err,
        trace,
    }
}

/// Runs the image of a text.
fn run_text(alloc: Global, text: &str, config: Config, budget: u32) -> Result<Ran, Fail> {
    let image = image_of(alloc, text)?;
    Ok(run(alloc, image.as_slice(), config, budget))
}

/// Replays a trace on an image.
fn replay(alloc: Global, trace: &[u8], file: io::Result<&[u8]>, shared_words: u32) -> Ran {
    let mut out = Meter::new(Vec::new(alloc));
    let mut err = Vec::new(alloc);
    let (mut trace, mut file) = (Meter::new(trace), metered(file));
    let status = replay_command(
        alloc,
        &mut trace,
        &mut file,
        shared_words,
        &mut out,
        &mut err,
    );
    Ran {
        status,
        out: out.device,
        err,
        trace: Vec::new(alloc),
    }
}
