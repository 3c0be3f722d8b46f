//! The tests run with each of their allocations refused in turn. The command then does what it does with ample memory,
//! or reports that it is out of memory.

use super::AMPLE;
use link::Meter;
use run_command::{run_command, unlogged_run_command};
use std::test::Fail;
use test_support::{EBREAK, ONE_TURN, Sink, assert_same, image_of, metered, size};
use trace_commands::replay_command;

/// The report of an image of `ebreak` on one processor.
const STOPPED: &[u8] = b"processor 0 pc 00010000 fault 8 retired 0 console -\n";

/// If the command is out of memory, it writes no byte of the trace.
#[test]
fn run_is_short_of_memory(rt: HostRuntime) -> Result<(), Fail> {
    let alloc = rt.alloc();
    let mut trace = Some(Meter::new(Sink::new(Vec::with_capacity(alloc, 24)?, 0)));
    let mut out = Meter::new(Sink::new(Vec::with_capacity(alloc, 64)?, 0));
    let mut err = Sink::new(Vec::with_capacity(alloc, 64)?, 0);
    let file = &mut Meter::new(EBREAK.as_slice());
    let status = run_command(
        alloc,
        file,
        size(0),
        AMPLE,
        true,
        &mut trace,
        &mut out,
        &mut err,
    );
    let written = trace.as_ref().map(|trace| trace.device.bytes.as_slice());
    if status == 1 {
        assert_same!(rt; written, Some(ONE_TURN.as_slice()));
        assert_same!(rt; out.device.bytes.as_slice(), STOPPED);
        assert_same!(rt; err.bytes.len(), 0);
    } else {
        assert_same!(rt; status, 4);
        assert_same!(rt; written, Some(b"".as_slice()));
        assert_same!(rt; out.device.bytes.len(), 0);
        assert_same!(rt; err.bytes.as_slice(), b"ultra: memory\n".as_slice());
    }
    Ok(())
}

/// A text that prints a byte, and its report.
const PRINTS: (&str, &str) = (
    "addi x17, x0, 1\necall\naddi x17, x0, 0\necall",
    "processor 0 pc 0001000c halt 00 retired 3 console 00\n",
);

/// A run without a log counts what it prints, and has no other use for memory while it takes its steps.
#[test]
fn unlogged_run_is_short_of_memory(rt: HostRuntime) -> Result<(), Fail> {
    let alloc = rt.alloc();
    let (text, report) = PRINTS;
    let image = image_of(alloc, text)?;
    let mut out = Meter::new(Sink::new(Vec::with_capacity(alloc, 64)?, 0));
    let mut err = Sink::new(Vec::with_capacity(alloc, 64)?, 0);
    let file = &mut Meter::new(image.as_slice());
    let status = unlogged_run_command(alloc, file, size(0), AMPLE, true, &mut out, &mut err);
    if status == 0 {
        assert_same!(rt; out.device.bytes.as_slice(), report.as_bytes());
        assert_same!(rt; err.bytes.len(), 0);
    } else {
        assert_same!(rt; status, 4);
        assert_same!(rt; out.device.bytes.len(), 0);
        assert_same!(rt; err.bytes.as_slice(), b"ultra: memory\n".as_slice());
    }
    Ok(())
}

#[test]
fn replay_is_short_of_memory(rt: HostRuntime) -> Result<(), Fail> {
    let alloc = rt.alloc();
    let mut out = Meter::new(Sink::new(Vec::with_capacity(alloc, 64)?, 0));
    let mut err = Sink::new(Vec::with_capacity(alloc, 64)?, 0);
    let status = replay_command(
        alloc,
        &mut Meter::new(ONE_TURN.as_slice()),
        &mut metered(Ok(EBREAK.as_slice())),
        1024,
        &mut out,
        &mut err,
    );
    if status == 1 {
        assert_same!(rt; out.device.bytes.as_slice(), STOPPED);
        assert_same!(rt; err.bytes.len(), 0);
    } else {
        assert_same!(rt; status, 4);
        assert_same!(rt; out.device.bytes.len(), 0);
        assert_same!(rt; err.bytes.as_slice(), b"ultra: memory\n".as_slice());
    }
    Ok(())
}
