//! Reports of programs that end.

use super::{AMPLE, replay, run_text};
use std::test::Fail;
use test_support::{HUNDRED_ADDS, assert_same, image_of, report_of_hundred_adds, size};

/// A run and the replay of its trace print the same report.
#[test]
fn hundred_adds(rt: HostRuntime) -> Result<(), Fail> {
    let alloc = rt.alloc();
    let image = image_of(alloc, HUNDRED_ADDS)?;
    for (k, processors, sum) in [
        (0, 1u8, "00000064"),
        (1, 2, "000000c8"),
        (6, 64, "00001900"),
    ] {
        let report = report_of_hundred_adds(alloc, processors, sum)?;
        let ran = run_text(alloc, HUNDRED_ADDS, size(k), AMPLE)?;
        assert_same!(rt; ran.out.as_slice(), report.as_bytes(), k);
        assert_same!(rt; ran.err.len(), 0, k);
        assert_same!(rt; ran.status, 0, k);

        let again = replay(alloc, ran.trace.as_slice(), Ok(image.as_slice()), 1024);
        assert_same!(rt; again.out.as_slice(), report.as_bytes(), k);
        assert_same!(rt; again.err.len(), 0, k);
        assert_same!(rt; again.status, 0, k);
    }
    Ok(())
}

/// Processor 0 has the first turn, and its fault ends the run.
#[test]
fn stopped_by_a_fault(rt: HostRuntime) -> Result<(), Fail> {
    let ran = run_text(rt.alloc(), "ebreak", size(2), AMPLE)?;
    let report = "processor 0 pc 00010000 fault 8 retired 0 console -
processor 1 pc 00010000 run retired 0 console -
processor 2 pc 00010000 run retired 0 console -
processor 3 pc 00010000 run retired 0 console -
";
    assert_same!(rt; ran.out.as_slice(), report.as_bytes());
    assert_same!(rt; ran.err.len(), 0);
    assert_same!(rt; ran.status, 1);
    Ok(())
}

/// Each processor halts with its own number, after it has sent it to the console twice.
#[test]
fn processors_of_a_report(rt: HostRuntime) -> Result<(), Fail> {
    let text = "
 addi x17, x0, 2
 ecall
 addi x17, x0, 1
 ecall
 ecall
 addi x17, x0, 0
 ecall
";
    let ran = run_text(rt.alloc(), text, size(1), AMPLE)?;
    let report = "processor 0 pc 00010018 halt 00 retired 6 console 0000
processor 1 pc 00010018 halt 01 retired 6 console 0101
";
    assert_same!(rt; ran.out.as_slice(), report.as_bytes());
    assert_same!(rt; ran.status, 0);
    Ok(())
}

/// The report has the shared words of the image, except those that are zero.
#[test]
fn words_of_a_report(rt: HostRuntime) -> Result<(), Fail> {
    let text = "ecall\n.shared\n.word 1, 0x89abcdef, 0, 0xffffffff\n.zero 24\n.word 7\n";
    let ran = run_text(rt.alloc(), text, size(1), AMPLE)?;
    let report = "processor 0 pc 00010000 halt 00 retired 0 console -
processor 1 pc 00010000 halt 00 retired 0 console -
word 0 00000001
word 1 89abcdef
word 3 ffffffff
word 10 00000007
";
    assert_same!(rt; ran.out.as_slice(), report.as_bytes());
    assert_same!(rt; ran.status, 0);
    Ok(())
}
