//! Latencies, worked out by hand. A round of the sweep has the turns, then the moves of requests from the last stage to
//! the first, then the services, and then the moves of replies from the first stage to the last.

use super::counts::{HOT_SPOT, sweep};
use super::{Asked, run};
use std::alloc::Global;
use std::process::Abort;
use std::test::Fail;
use test_support::{ADD_AT_X12, FOUR_ADDS, assert_same, image_of, trace_of};

/// Checks that the lines of the latencies, after all others, are these.
fn has_latencies(
    rt: &impl Abort,
    alloc: Global,
    trace: &[u8],
    image: &[u8],
    wanted: &str,
) -> Result<(), Fail> {
    let ran = run(alloc, Asked::LatencyStats, trace, Ok(image), 1024);
    let counts = run(alloc, Asked::Stats, trace, Ok(image), 1024);
    let text = str::from_utf8(ran.out.as_slice())?;
    let before = str::from_utf8(counts.out.as_slice())?;
    assert_same!(rt; text.strip_prefix(before).unwrap_or(""), wanted);
    assert_same!(rt; ran.status, counts.status);
    assert_same!(rt; ran.err.len(), 0);
    Ok(())
}

/// The trace of four adds, whole and cut after the service. In the first round all four requests are sent. Whole, the
/// trace has the other turns in the fifth round. Of the drain two replies come down in the fourth round, and the turns
/// of processors 0 and 2 are in the fifth. The replies of processors 1 and 3 come down after them.
#[test]
fn four_adds(rt: HostRuntime) -> Result<(), Fail> {
    let alloc = rt.alloc();
    let image = image_of(alloc, ADD_AT_X12)?;
    let trace = trace_of(alloc, (2, 4, 4), &FOUR_ADDS)?;
    let wanted = "latency all references 4 least 4 mean 4.00 greatest 4 rounds 4x4
latency processor 0 references 1 least 4 mean 4.00 greatest 4 rounds 4x1
latency processor 1 references 1 least 4 mean 4.00 greatest 4 rounds 4x1
latency processor 2 references 1 least 4 mean 4.00 greatest 4 rounds 4x1
latency processor 3 references 1 least 4 mean 4.00 greatest 4 rounds 4x1
latency word 0 references 4 least 4 mean 4.00 greatest 4 rounds 4x4
";
    has_latencies(&rt, alloc, trace.as_slice(), image.as_slice(), wanted)?;
    let trace = trace_of(alloc, (2, 4, 4), &FOUR_ADDS[..20])?;
    let wanted = "latency all references 4 least 4 mean 4.50 greatest 5 rounds 4x4
latency processor 0 references 1 least 4 mean 4.00 greatest 4 rounds 4x1
latency processor 1 references 1 least 5 mean 5.00 greatest 5 rounds 4x1
latency processor 2 references 1 least 4 mean 4.00 greatest 4 rounds 4x1
latency processor 3 references 1 least 5 mean 5.00 greatest 5 rounds 4x1
latency word 0 references 4 least 4 mean 4.50 greatest 5 rounds 4x4
";
    has_latencies(&rt, alloc, trace.as_slice(), image.as_slice(), wanted)
}

/// Each processor adds 1 to word 0, and reads word 1.
const TWO_WORDS: &str = "
start: lui s2, 0x80000
 addi s5, x0, 1
 amoadd.w t0, s5, (s2)
 lw t1, 4(s2)
 addi a7, x0, 0
 addi a0, x0, 0
 ecall
";

/// One processor without a network: a module serves in the round of the turn that sends the request, so the next turn
/// retires the instruction. Two processors whose requests combine: the request, the service and the reply are all in
/// the round of the turns. Two whose requests do not combine: the module serves processor 1 in the second round, and
/// its turn is in the third. From then on processor 1 is a round later, so no other request waits.
#[test]
fn small_machines(rt: HostRuntime) -> Result<(), Fail> {
    let alloc = rt.alloc();
    let image = image_of(alloc, TWO_WORDS)?;
    for (k, b, wanted) in [
        (
            0,
            4,
            "latency all references 2 least 1 mean 1.00 greatest 1 rounds 1x2
latency processor 0 references 2 least 1 mean 1.00 greatest 1 rounds 1x2
latency word 0 references 1 least 1 mean 1.00 greatest 1 rounds 1x1
latency word 1 references 1 least 1 mean 1.00 greatest 1 rounds 1x1
",
        ),
        (
            1,
            4,
            "latency all references 4 least 1 mean 1.00 greatest 1 rounds 1x4
latency processor 0 references 2 least 1 mean 1.00 greatest 1 rounds 1x2
latency processor 1 references 2 least 1 mean 1.00 greatest 1 rounds 1x2
latency word 0 references 2 least 1 mean 1.00 greatest 1 rounds 1x2
latency word 1 references 2 least 1 mean 1.00 greatest 1 rounds 1x2
",
        ),
        (
            1,
            0,
            "latency all references 4 least 1 mean 1.25 greatest 2 rounds 1x3 2x1
latency processor 0 references 2 least 1 mean 1.00 greatest 1 rounds 1x2
latency processor 1 references 2 least 1 mean 1.50 greatest 2 rounds 1x1 2x1
latency word 0 references 2 least 1 mean 1.50 greatest 2 rounds 1x1 2x1
latency word 1 references 2 least 1 mean 1.00 greatest 1 rounds 1x2
",
        ),
    ] {
        let trace = sweep(alloc, image.as_slice(), k, b)?;
        has_latencies(&rt, alloc, trace.as_slice(), image.as_slice(), wanted)?;
    }
    Ok(())
}

/// All eight processors refer to one word at the same time, 200 times. With combining no reference waits: it goes up one
/// stage a round, is served in the third round, and its reply goes down one stage in that round and in each of the next
/// two. Without combining, the numbers come from a simulator of the sweep that was written for this test alone.
#[test]
fn all_meet_at_one_word(rt: HostRuntime) -> Result<(), Fail> {
    let alloc = rt.alloc();
    let image = image_of(alloc, HOT_SPOT)?;
    for (b, wanted) in [
        (
            0,
            "latency all references 1600 least 5 mean 5.51 greatest 12 rounds 4x1595 8x5
latency processor 0 references 200 least 5 mean 5.48 greatest 6 rounds 4x200
",
        ),
        (
            4,
            "latency all references 1600 least 5 mean 5.00 greatest 5 rounds 4x1600
latency processor 0 references 200 least 5 mean 5.00 greatest 5 rounds 4x200
",
        ),
    ] {
        let trace = sweep(alloc, image.as_slice(), 3, b)?;
        let ran = run(
            alloc,
            Asked::LatencyStats,
            trace.as_slice(),
            Ok(image.as_slice()),
            1024,
        );
        let text = str::from_utf8(ran.out.as_slice())?;
        assert!(rt; text.find(wanted).is_some(), "{text}");
        assert_same!(rt; ran.status, 0);
    }
    Ok(())
}
