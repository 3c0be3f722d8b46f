//! Counts of small traces, worked out by hand, and of a hot spot.

use super::{Asked, run};
use flat_machine::Config;
use link::Meter;
use run_command::run_command;
use std::alloc::Global;
use std::test::Fail;
use test_support::{ADD_AT_X12, EBREAK, FOUR_ADDS, assert_same, image_of, trace_of};

/// The line of the size, and the first line of the counts, without the number of rounds.
const COUNTS: &str = "machine k 2 c 4 b 4 r 1
steps 27 turns 8 up 6 serve 1 down 3 poke 9 rounds ";

/// The other lines. All requests that meet combine, so no queue holds more than one request or reply.
const PARTS: &str = "
stage 0 up 2 combined 2 down 0 split 2 requests 1 records 1 replies 1
stage 1 up 1 combined 1 down 0 split 1 requests 1 records 1 replies 1
module 0 serves 1 4x1
module 1 serves 0
module 2 serves 0
module 3 serves 0
processor 0 turns 2 retired 1
processor 1 turns 2 retired 1
processor 2 turns 2 retired 1
processor 3 turns 2 retired 1
";

/// The whole trace, and the trace cut after the service, so that a drain brings the replies home. A step that comes
/// before its predecessor in the order of the sweep begins a new round. The requests on wires 0 and 2 leave the first
/// stage in the first round, and those on wires 1 and 3 in the second. In the third round both requests leave the
/// second stage, the module serves, and the reply comes down a stage. In the fourth both replies come down, and in
/// the fifth all processors retire. A drain takes a turn as soon as a reply has come: the first reply comes down in
/// the fourth round, two turns and the second reply are in the fifth, and the other turns are in the sixth.
#[test]
fn four_adds(rt: HostRuntime) -> Result<(), Fail> {
    let alloc = rt.alloc();
    let image = image_of(alloc, ADD_AT_X12)?;
    for (steps, rounds) in [(27, "5"), (20, "6")] {
        let trace = trace_of(alloc, (2, 4, 4), &FOUR_ADDS[..steps])?;
        let ran = run(
            alloc,
            Asked::Stats,
            trace.as_slice(),
            Ok(image.as_slice()),
            1,
        );
        let text = str::from_utf8(ran.out.as_slice())?;
        let rest = text.strip_prefix(COUNTS).unwrap_or("");
        assert_same!(rt; rest.strip_prefix(rounds).unwrap_or(""), PARTS);
        assert_same!(rt; ran.err.len(), 0);
        assert_same!(rt; ran.status, 0);
    }
    Ok(())
}

/// The trace of no steps on a machine of two processors, with queues of 7 messages and wait buffers of 5 records, whose
/// queued requests can be combined three times.
const NO_STEPS: [u8; 16] = [0x55, 0x4C, 0x54, 0x52, 2, 1, 7, 5, 3, 0, 0, 0, 0, 0, 0, 0];

#[test]
fn names_the_size(rt: HostRuntime) -> Result<(), Fail> {
    let ran = run(
        rt.alloc(),
        Asked::Stats,
        NO_STEPS.as_slice(),
        Ok(EBREAK.as_slice()),
        1,
    );
    let text = str::from_utf8(ran.out.as_slice())?;
    let first = "machine k 1 c 7 b 5 r 3\nsteps 0 turns 0 up 0 serve 0 down 0 poke 0 rounds 0\n";
    assert!(rt; text.starts_with(first), "{text}");
    assert_same!(rt; ran.status, 0);
    Ok(())
}

/// Each processor adds 1 to word 0 and then reads it, a hundred times.
pub(super) const HOT_SPOT: &str = "
start: lui s2, 0x80000
 addi s3, x0, 100
 addi s5, x0, 1
again: amoadd.w t0, s5, (s2)
 bltu t0, s4, bad
 lw s4, 0(s2)
 bgeu t0, s4, bad
 addi s3, s3, -1
 bne s3, x0, again
 addi a7, x0, 0
 addi a0, x0, 0
 ecall
bad: ebreak
";

/// The trace of a run by the sweep, on `2^k` processors.
pub(super) fn sweep(alloc: Global, image: &[u8], k: u8, b: u8) -> Result<Vec<u8>, Fail> {
    let config = Config {
        k,
        c: 4,
        b,
        r: 1,
        shared_words: 1024,
    };
    let mut trace = Some(Meter::new(Vec::new(alloc)));
    let mut out = Meter::new(Vec::new(alloc));
    run_command(
        alloc,
        &mut Meter::new(image),
        config,
        20_000,
        false,
        &mut trace,
        &mut out,
        &mut Vec::new(alloc),
    );
    match trace {
        Some(trace) => Ok(trace.device),
        None => Ok(Vec::new(alloc)),
    }
}

/// All eight processors refer to one word at the same time, 200 times. Without combining, each reference takes three
/// moves up, a service and three moves down. With combining, half of the requests that enter a stage leave it, one of
/// eight reaches the module, and its reply is split again at each stage. A processor retires 605 instructions, of
/// which 200 take two turns, and halts in one more turn. The longest queues and the rounds come from a simulator of
/// the sweep that was written for this test alone.
#[test]
fn all_meet_at_one_word(rt: HostRuntime) -> Result<(), Fail> {
    let alloc = rt.alloc();
    let image = image_of(alloc, HOT_SPOT)?;
    for (b, first) in [
        (
            0,
            "machine k 3 c 4 b 0 r 1
steps 17648 turns 6448 up 4800 serve 1600 down 4800 poke 0 rounds 1716
stage 0 up 1600 combined 0 down 1600 split 0 requests 2 records 0 replies 1
stage 1 up 1600 combined 0 down 1600 split 0 requests 3 records 0 replies 1
stage 2 up 1600 combined 0 down 1600 split 0 requests 4 records 0 replies 1
module 0 serves 1600 1x1600
module 1 serves 0
",
        ),
        (
            4,
            "machine k 3 c 4 b 4 r 1
steps 10848 turns 6448 up 2800 serve 200 down 1400 poke 0 rounds 1606
stage 0 up 800 combined 800 down 0 split 800 requests 1 records 1 replies 1
stage 1 up 400 combined 400 down 0 split 400 requests 1 records 1 replies 1
stage 2 up 200 combined 200 down 0 split 200 requests 1 records 1 replies 1
module 0 serves 200 8x200
module 1 serves 0
",
        ),
    ] {
        let trace = sweep(alloc, image.as_slice(), 3, b)?;
        let ran = run(
            alloc,
            Asked::Stats,
            trace.as_slice(),
            Ok(image.as_slice()),
            1024,
        );
        let text = str::from_utf8(ran.out.as_slice())?;
        assert!(rt; text.starts_with(first), "{text}");
        assert!(rt;
            text.ends_with("processor 7 turns 806 retired 605\n"),
            "{text}"
        );
        assert_same!(rt; text.lines().count(), 21);
        assert_same!(rt; ran.status, 0);
    }
    Ok(())
}
