//! The lassos of fair schedules that never end: their lines, and the trace of a stem and one turn round the cycle.

use super::each;
use super::witnesses::{replayed, search_with_trace};
use explore_command::Asked;
use observed_results::ObservedWords;
use std::alloc::Global;
use std::process::Abort;
use std::test::Fail;
use test_support::{assert_same, image_of};

/// Waits for a word that nobody writes.
const WAITS: &str = "lui x1, 0x80000\nwait: lw x2, 0(x1)\nbeq x2, x0, wait\necall";

/// Processor 1 writes 1, and then 0 again, while the other waits for the 1, and may look too late.
const MISSED: &str =
    "addi a7, x0, 2\necall\nlui x1, 0x80000\nbeq a0, x0, wait\naddi x4, x0, 1\nsw x4, 0(x1)\nsw x0, 0(x1)\n\
    jal x0, done\nwait: lw x2, 0(x1)\nbeq x2, x0, wait\ndone: addi a7, x0, 0\necall";

/// Each processor adds 1 by a load and a store.
const ADDS: &str = "lui x1, 0x80000\nlw x2, 0(x1)\naddi x2, x2, 1\nsw x2, 0(x1)\necall";

/// A search that asks for fair schedules.
fn fair() -> Asked<'static> {
    Asked {
        fair: true,
        ..each(100)
    }
}

/// Searches an image for a lasso, and compares what is printed, and the report of the trace.
fn shows<R: Abort>(
    rt: &R,
    alloc: Global,
    file: &[u8],
    k: u8,
    asked: Asked<'_>,
    lines: &str,
    report: &str,
) {
    let ran = search_with_trace(alloc, file, k, asked);
    assert_same!(rt; ran.status, 1);
    assert_same!(rt; ran.err.len(), 0);
    assert_same!(rt; ran.out.as_slice(), lines.as_bytes());
    assert_same!(rt; replayed(alloc, ran.trace.as_slice(), file).as_slice(), report.as_bytes());
}

/// A processor that waits alone refers again and again. On two processors, processor 1 writes twice and stops, and then
/// the other waits for ever. The trace has the references of the stem and those of one turn round the cycle: here two
/// stores of processor 1, after five other instructions, and one load of the other, after four.
#[test]
fn lassos_are_shown(rt: HostRuntime) -> Result<(), Fail> {
    let alloc = rt.alloc();
    shows(
        &rt,
        alloc,
        image_of(alloc, WAITS)?.as_slice(),
        0,
        fair(),
        "0 results, 1 state\nfrom 1 state no end can be reached\n\
        some fair schedule never ends\nstem\ncycle 0\n",
        "processor 0 pc 00010008 run retired 2 console -\n",
    );
    shows(
        &rt,
        alloc,
        image_of(alloc, MISSED)?.as_slice(),
        1,
        fair(),
        "result 1\nprocessor 0 pc 0001002c halt 00 console -\nprocessor 1 pc 0001002c halt 01 console -\n\
        1 result, 5 states\nfrom 1 state no end can be reached\n\
        some fair schedule never ends\nstem 1 1\ncycle 0\n",
        "processor 0 pc 00010024 run retired 5 console -\n\
        processor 1 pc 0001001c run retired 7 console -\n",
    );
    Ok(())
}

/// Which words are observed makes no difference to the lasso.
#[test]
fn observed_lassos_are_shown(rt: HostRuntime) -> Result<(), Fail> {
    let alloc = rt.alloc();
    let words = ObservedWords::of_list(alloc, "3", 16)?.ok_or("no list")?;
    let asked = Asked {
        observed: Some(&words),
        ..fair()
    };
    shows(
        &rt,
        alloc,
        image_of(alloc, WAITS)?.as_slice(),
        0,
        asked,
        "0 results, 1 state\nfrom 1 state no end can be reached\n\
        some fair schedule never ends\nstem\ncycle 0\n",
        "processor 0 pc 00010008 run retired 2 console -\n",
    );
    Ok(())
}

/// There is no trace if every fair schedule ends, or if it is not asked whether it does.
#[test]
fn no_lasso_is_refused(rt: HostRuntime) -> Result<(), Fail> {
    let alloc = rt.alloc();
    for (text, asked) in [(ADDS, fair()), (WAITS, each(100))] {
        let ran = search_with_trace(alloc, image_of(alloc, text)?.as_slice(), 0, asked);
        assert_same!(rt; ran.status, 2);
        assert_same!(rt; ran.out.len(), 0);
        assert_same!(rt; ran.trace.len(), 0);
        assert_same!(rt; ran.err.as_slice(), b"error: no fair schedule is known that never ends\n".as_slice());
    }
    Ok(())
}
