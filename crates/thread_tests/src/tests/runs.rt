//! Runs on threads, from the bytes of files to the bytes of a report. The images are assembled from texts. What is
//! expected is worked out by hand, and is the same whatever the threads do.

mod ends;
mod reports;

use flat_machine::Config;
use link::Meter;
use processor_threads::{Gate, Open};
use run_command::threaded_run_command;
use std::alloc::Global;
use std::sync::Wait;
use std::thread::Threads;
use test_support::metered;
use trace_commands::replay_command;

/// A budget that no program here uses up, unless a thread cannot go on.
const AMPLE: u32 = 10_000_000;

/// The exit status of a command, and what it wrote.
#[derive(Drop)]
struct Ran {
    status: u8,
    out: Vec<u8>,
    err: Vec<u8>,
    /// The trace, if one was asked for.
    trace: Vec<u8>,
}

/// Runs an image with start 1, and with a trace.
fn run<R: Threads + Wait + Sync>(
    rt: &R,
    alloc: Global,
    image: &[u8],
    config: Config,
    budget: u32,
) -> Ran {
    run_from(rt, alloc, &Open, 1, image, config, budget)
}

/// Runs an image with start 1, and with a trace. A run that its budget ends is reported, too.
fn run_unfinished<R: Threads + Wait + Sync>(
    rt: &R,
    alloc: Global,
    image: &[u8],
    config: Config,
    budget: u32,
) -> Ran {
    run_to(rt, alloc, &Open, 1, image, config, budget, true)
}

/// Runs an image with this start and this gate, and with a trace.
fn run_from<G: Gate + Sync, R: Threads + Wait + Sync>(
    rt: &R,
    alloc: Global,
    gate: &G,
    start: u32,
    image: &[u8],
    config: Config,
    budget: u32,
) -> Ran {
    run_to(rt, alloc, gate, start, image, config, budget, false)
}

/// The same. `unfinished` says whether a run that its budget ends is reported, too.
fn run_to<G: Gate + Sync, R: Threads + Wait + Sync>(
    rt: &R,
    alloc: Global,
    gate: &G,
    start: u32,
    image: &[u8],
    config: Config,
    budget: u32,
    unfinished: bool,
) -> Ran {
    let mut out = Meter::new(Vec::new(alloc));
    let mut err = Vec::new(alloc);
    let mut trace = Some(Meter::new(Vec::new(alloc)));
    let image = &mut Meter::new(image);
    let status = threaded_run_command(
        rt, alloc, image, config, start, gate, budget, unfinished, &mut trace, &mut out, &mut err,
    );
    let trace = match trace {
        Some(trace) => trace.device,
        None => Vec::new(alloc),
    };
    Ran {
        status,
        out: out.device,
        err,
        trace,
    }
}

/// Replays a trace on an image.
fn replay(alloc: Global, trace: &[u8], image: &[u8]) -> Ran {
    let mut out = Meter::new(Vec::new(alloc));
    let mut err = Vec::new(alloc);
    let (mut trace, mut image) = (Meter::new(trace), metered(Ok(image)));
    let status = replay_command(alloc, &mut trace, &mut image, 1024, &mut out, &mut err);
    Ran {
        status,
        out: out.device,
        err,
        trace: Vec::new(alloc),
    }
}
