//! Replays of traces made by hand.

use super::{AMPLE, replay, run_text};
use std::test::Fail;
use test_support::{ONE_TURN, assert_same, image_of, size};

/// The trace of a run of one `ecall`, and its replay.
#[test]
fn one_turn(rt: HostRuntime) -> Result<(), Fail> {
    let alloc = rt.alloc();
    let report = b"processor 0 pc 00010000 halt 00 retired 0 console -\n";
    let ran = run_text(alloc, "ecall", size(0), AMPLE)?;
    assert_same!(rt; ran.out.as_slice(), report.as_slice());
    assert_same!(rt; ran.trace.as_slice(), ONE_TURN.as_slice());
    assert_same!(rt; ran.status, 0);

    let image = image_of(alloc, "ecall")?;
    let ran = replay(alloc, &ONE_TURN, Ok(image.as_slice()), 1024);
    assert_same!(rt; ran.out.as_slice(), report.as_slice());
    assert_same!(rt; ran.err.len(), 0);
    assert_same!(rt; ran.status, 0);
    Ok(())
}

/// The second turn stalls, since the first has halted the processor.
#[test]
fn step_that_stalls(rt: HostRuntime) -> Result<(), Fail> {
    let alloc = rt.alloc();
    let image = image_of(alloc, "ecall")?;
    let mut trace = ONE_TURN.as_slice().to_vec(alloc)?;
    trace.extend_from_slice(&ONE_TURN[12..])?;
    assert_same!(rt; trace.len(), 36);
    trace[8] = 2;
    let ran = replay(alloc, trace.as_slice(), Ok(image.as_slice()), 1024);
    assert_same!(rt; ran.err.as_slice(), b"ultra: X7 step 1\n".as_slice());
    assert_same!(rt; ran.out.len(), 0);
    assert_same!(rt; ran.status, 2);
    Ok(())
}

#[test]
fn refuses_what_is_no_trace(rt: HostRuntime) -> Result<(), Fail> {
    let alloc = rt.alloc();
    let image = image_of(alloc, "ecall")?;
    for cut in 0..24 {
        let ran = replay(alloc, &ONE_TURN[..cut], Ok(image.as_slice()), 1024);
        assert_same!(rt; ran.err.as_slice(), b"ultra: X1\n".as_slice(), cut);
        assert_same!(rt; ran.out.len(), 0, cut);
        assert_same!(rt; ran.status, 2, cut);
    }
    let mut long = ONE_TURN.as_slice().to_vec(alloc)?;
    long.push(0)?;
    let ran = replay(alloc, long.as_slice(), Ok(image.as_slice()), 1024);
    assert_same!(rt; ran.err.as_slice(), b"ultra: X4\n".as_slice());
    assert_same!(rt; ran.status, 2);
    for (place, byte, reported) in [
        (0, 0, "ultra: X2\n"),
        (5, 7, "ultra: X2\n"),
        (23, 1, "ultra: X3\n"),
    ] {
        let mut wrong = ONE_TURN;
        if let Some(there) = wrong.get_mut(place) {
            *there = byte;
        }
        let ran = replay(alloc, &wrong, Ok(image.as_slice()), 1024);
        assert_same!(rt; ran.err.as_slice(), reported.as_bytes());
        assert_same!(rt; ran.status, 2, reported);
    }
    Ok(())
}

/// The third of three turns sends a request. It is served and retires in the drain, and the report shows what it adds
/// and that it retired.
#[test]
fn drains_after_the_trace(rt: HostRuntime) -> Result<(), Fail> {
    let alloc = rt.alloc();
    let text = "
 lui x5, 0x80000
 addi x7, x0, 5
 amoadd.w x8, x7, (x5)
 ebreak
";
    let image = image_of(alloc, text)?;
    let mut trace = ONE_TURN.as_slice().to_vec(alloc)?;
    trace.extend_from_slice(&ONE_TURN[12..])?;
    trace.extend_from_slice(&ONE_TURN[12..])?;
    assert_same!(rt; trace.len(), 48);
    trace[8] = 3;
    let ran = replay(alloc, trace.as_slice(), Ok(image.as_slice()), 1024);
    assert_same!(rt; ran.out.as_slice(), b"processor 0 pc 0001000c run retired 3 console -\nword 0 00000005\n".as_slice());
    assert_same!(rt; ran.status, 0);
    Ok(())
}

/// After a trace of no steps, the report shows the machine as it starts.
#[test]
fn no_steps(rt: HostRuntime) -> Result<(), Fail> {
    let alloc = rt.alloc();
    let image = image_of(alloc, "ebreak")?;
    let trace = b"ULTR\x01\x01\x02\x00\x00\x00\x00\x00";
    let ran = replay(alloc, trace, Ok(image.as_slice()), 1);
    let report = "processor 0 pc 00010000 run retired 0 console -
processor 1 pc 00010000 run retired 0 console -
";
    assert_same!(rt; ran.out.as_slice(), report.as_bytes());
    assert_same!(rt; ran.status, 0);
    Ok(())
}
