//! Reports of programs that end.

use super::{AMPLE, Ran, replay, run};
use crate::tests::rounds::SENDS_MANY;
use std::alloc::Global;
use std::fmt::Write;
use std::process::Abort;
use std::sync::Wait;
use std::test::Fail;
use std::thread::Threads;
use test_support::{HUNDRED_ADDS, assert_same, image_of, report_of_hundred_adds, size};

/// Checks that a command printed this report, wrote nothing to standard error, and ended with this status.
fn prints(rt: &impl Abort, ran: Ran, report: &str, status: u8) {
    assert_same!(rt; ran.err.len(), 0, report);
    assert_same!(rt; ran.out.as_slice(), report.as_bytes());
    assert_same!(rt; ran.status, status, report);
}

/// Checks that a run of a text has this report and status, and that its trace replays to them.
fn assert_reported<R: Threads + Wait + Abort + Sync>(
    rt: &R,
    alloc: Global,
    (text, k): (&str, u8),
    report: &str,
    status: u8,
) -> Result<(), Fail> {
    let image = image_of(alloc, text)?;
    let ran = run(rt, alloc, image.as_slice(), size(k), AMPLE);
    prints(
        rt,
        replay(alloc, ran.trace.as_slice(), image.as_slice()),
        report,
        status,
    );
    prints(rt, ran, report, status);
    Ok(())
}

/// Each processor retires 311 instructions, reads at least its own sum and prints its `A`; the word has all adds.
#[test]
fn a_hundred_adds_each(rt: HostRuntime) -> Result<(), Fail> {
    for (k, processors, sum) in [
        (0, 1u8, "00000064"),
        (1, 2, "000000c8"),
        (2, 4, "00000190"),
        (6, 64, "00001900"),
    ] {
        let report = report_of_hundred_adds(rt.alloc(), processors, sum)?;
        assert_reported(&rt, rt.alloc(), (HUNDRED_ADDS, k), report.as_str(), 0)?;
    }
    Ok(())
}

/// The report of a processor that has sent 300 bytes.
fn report_of_many(alloc: Global) -> Result<String, Fail> {
    let mut report = String::new(alloc);
    write!(
        report,
        "processor 0 pc 00010020 halt 00 retired 905 console "
    )?;
    for _ in 0..300 {
        write!(report, "41")?;
    }
    write!(report, "\n")?;
    Ok(report)
}

/// A processor sends 300 bytes, more than its queue holds, and none is lost.
#[test]
fn more_bytes_than_a_queue_holds(rt: HostRuntime) -> Result<(), Fail> {
    let report = report_of_many(rt.alloc())?;
    assert_reported(&rt, rt.alloc(), (SENDS_MANY, 0), report.as_str(), 0)
}

/// Processor 0 stops by EBREAK, and the other goes on until it halts with its number, which it has written twice to the
/// console.
#[test]
fn goes_on_after_a_fault(rt: HostRuntime) -> Result<(), Fail> {
    let text = "
 addi x17, x0, 2
 ecall
 bne x10, x0, on
 ebreak
on: addi x17, x0, 1
 ecall
 ecall
 addi x17, x0, 0
 ecall
";
    let report = "processor 0 pc 0001000c fault 8 retired 3 console -
processor 1 pc 00010020 halt 01 retired 7 console 0101
";
    assert_reported(&rt, rt.alloc(), (text, 1), report, 1)
}
