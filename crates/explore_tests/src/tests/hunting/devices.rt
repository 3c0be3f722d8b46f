//! Refusals, writes that fail, and a test of which `tests/cli/memory.sh` refuses each request for memory in turn.

use super::{Kept, hunted, keeping, runs_from, size};
use hunt_command::{Hunt, NoHuntProgress, Policy, hunt_command};
use link::Meter;
use random_schedules::Strategy;
use std::test::Fail;
use test_support::{EBREAK, Sink, assert_same};

/// The result of runs of `ebreak` on one processor.
const STOPPED: &[u8] = b"runs 2 first 1 over\nprocessor 0 pc 00010000 fault 8 console -\n";

const HUNT: Hunt<'static> = Hunt {
    policy: Policy {
        strategy: Strategy::Random,
        budget: 10,
    },
    runs: 2,
    start: 1,
    expect_one: false,
    observed: None,
};

#[test]
fn refusals(rt: HostRuntime) {
    let alloc = rt.alloc();
    for (image, k, reported) in [
        (&EBREAK[..51], 0, b"ultra: I1\n".as_slice()),
        (&EBREAK[..], 7, b"ultra: K1\n"),
    ] {
        let ran = hunted(&rt, image, size(k), runs_from(1, 1), keeping(alloc));
        assert_same!(rt; ran.err.as_slice(), reported);
        assert_same!(rt; ran.out.len(), 0);
        assert_same!(rt; ran.status, 2);
    }
}

/// A trace that cannot be written is reported, and then nothing is printed. Lines that cannot be printed are printed up
/// to the failure.
#[test]
fn writes_that_fail(rt: HostRuntime) {
    let alloc = rt.alloc();
    for (trace_fails_at, fails_at, printed, reported, expected) in [
        (1, 0, 0, b"ultra: X5\n".as_slice(), 3),
        (0, 1, 0, b"ultra: link\n", 3),
        (0, 5, 4, b"ultra: link\n", 3),
        (0, 0, STOPPED.len(), b"", 1),
    ] {
        let mut traces = Some(keeping(alloc));
        if let Some(kept) = &mut traces {
            kept.fails = Some((1, trace_fails_at));
        }
        let mut out = Meter::new(Sink::new(Vec::new(alloc), fails_at));
        let mut err = Sink::new(Vec::new(alloc), 0);
        let mut file = Meter::new(EBREAK.as_slice());
        let observer = &mut NoHuntProgress;
        let status = hunt_command(
            &rt,
            1,
            alloc,
            &mut file,
            size(0),
            HUNT,
            &mut traces,
            observer,
            &mut out,
            &mut err,
        );
        assert_same!(rt; Some(out.device.bytes.as_slice()), STOPPED.get(..printed));
        assert_same!(rt; err.bytes.as_slice(), reported);
        assert_same!(rt; status, expected);
    }
}

#[test]
fn short_of_memory(rt: HostRuntime) -> Result<(), Fail> {
    let alloc = rt.alloc();
    let mut traces: Option<Kept> = None;
    let mut out = Meter::new(Sink::new(Vec::with_capacity(alloc, 128)?, 0));
    let mut err = Sink::new(Vec::with_capacity(alloc, 128)?, 0);
    let mut file = Meter::new(EBREAK.as_slice());
    let observer = &mut NoHuntProgress;
    let status = hunt_command(
        &rt,
        1,
        alloc,
        &mut file,
        size(0),
        HUNT,
        &mut traces,
        observer,
        &mut out,
        &mut err,
    );
    if status == 1 {
        assert_same!(rt; out.device.bytes.as_slice(), STOPPED);
        assert_same!(rt; err.bytes.len(), 0);
    } else {
        assert_same!(rt; status, 4);
        assert_same!(rt; out.device.bytes.len(), 0);
        assert_same!(rt; err.bytes.as_slice(), b"ultra: memory\n".as_slice());
    }
    Ok(())
}
