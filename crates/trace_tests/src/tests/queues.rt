//! Lengths of queues at the ends of rounds, worked out by hand.

use super::{Asked, run};
use std::alloc::Global;
use std::process::Abort;
use std::test::Fail;
use test_support::{ADD_AT_X12, FOUR_ADDS, assert_same, image_of, trace_of};

/// Checks that these lines of lengths come after all others, and that the table of them has these rows.
fn has_lengths(
    rt: &impl Abort,
    alloc: Global,
    trace: &[u8],
    image: &[u8],
    lines: &str,
    rows: &str,
) -> Result<(), Fail> {
    let ran = run(alloc, Asked::QueueStats, trace, Ok(image), 1024);
    let counts = run(alloc, Asked::Stats, trace, Ok(image), 1024);
    let text = str::from_utf8(ran.out.as_slice())?;
    let before = str::from_utf8(counts.out.as_slice())?;
    assert_same!(rt; text.strip_prefix(before).unwrap_or(""), lines);
    assert_same!(rt; ran.status, counts.status);
    assert_same!(rt; ran.err.len(), 0);
    let ran = run(alloc, Asked::QueueTable, trace, Ok(image), 1024);
    let table = str::from_utf8(ran.out.as_slice())?;
    assert_same!(rt; table.strip_prefix("round,stage,requests,records,replies\n").unwrap_or(""), rows);
    assert_same!(rt; ran.status, counts.status);
    assert_same!(rt; ran.err.len(), 0);
    Ok(())
}

/// In the first round all requests are sent; that of processor 0 moves through the first stage, and that of processor 2
/// joins it. In the second that of processor 1 moves, and that of processor 3 joins it. In the third that of processor 0
/// moves through the last stage, that of processor 1 joins it, the module serves it, and the reply comes back through
/// the last stage, where it is split. In the fourth both replies come through the first stage, and are split, too. In the
/// fifth the processors take them.
#[test]
fn four_adds(rt: HostRuntime) -> Result<(), Fail> {
    let alloc = rt.alloc();
    let image = image_of(alloc, ADD_AT_X12)?;
    let trace = trace_of(alloc, (2, 4, 4), &FOUR_ADDS)?;
    let lines = "round 1 stage 0 requests 1 records 1 replies 0
round 2 stage 0 requests 2 records 2 replies 0
round 3 stage 0 requests 0 records 2 replies 0
round 3 stage 1 requests 0 records 0 replies 2
round 4 stage 0 requests 0 records 0 replies 4
waited stage 0 requests 3 records 5 replies 4
waited stage 1 requests 0 records 0 replies 2
";
    let rows = "1,0,1,1,0
2,0,2,2,0
3,0,0,2,0
3,1,0,0,2
4,0,0,0,4
";
    has_lengths(&rt, alloc, trace.as_slice(), image.as_slice(), lines, rows)
}

/// Without wait buffers none joins another. In each of the first two rounds two requests move through the first stage,
/// all towards module 0. What the drain takes first, a move through the last stage, begins the third.
#[test]
fn no_records(rt: HostRuntime) -> Result<(), Fail> {
    let alloc = rt.alloc();
    let image = image_of(alloc, ADD_AT_X12)?;
    let trace = trace_of(alloc, (2, 4, 0), &FOUR_ADDS[..17])?;
    let ran = run(
        alloc,
        Asked::QueueTable,
        trace.as_slice(),
        Ok(image.as_slice()),
        1024,
    );
    let table = str::from_utf8(ran.out.as_slice())?;
    let first = "round,stage,requests,records,replies\n1,0,2,0,0\n2,0,4,0,0\n3,";
    assert_eq!(rt; table.starts_with(first), true);
    for row in table.lines().skip(1) {
        assert_same!(rt; row.split(',').nth(3), Some("0"));
    }
    Ok(())
}

/// A turn on a machine without stages, and no step on one with a stage: nothing waits at a stage.
#[test]
fn nothing_waits(rt: HostRuntime) -> Result<(), Fail> {
    let alloc = rt.alloc();
    let image = image_of(alloc, ADD_AT_X12)?;
    let turn = [1, 0, 0, 0, 0, 0, 0, 0, 0, 0, 0, 0];
    let trace = trace_of(alloc, (0, 4, 4), &[turn])?;
    has_lengths(&rt, alloc, trace.as_slice(), image.as_slice(), "", "")?;
    let trace = trace_of(alloc, (1, 4, 4), &[])?;
    let lines = "waited stage 0 requests 0 records 0 replies 0\n";
    has_lengths(&rt, alloc, trace.as_slice(), image.as_slice(), lines, "")
}
