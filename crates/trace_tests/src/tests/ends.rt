//! What is reported if no lines are printed.

use super::{Asked, WHOLE, run};
use std::alloc::Global;
use std::io::{self, ErrorKind};
use std::process::Abort;
use std::test::Fail;
use test_support::{EBREAK, ONE_TURN, assert_same, image_of, trace_of};

/// Checks that nothing is printed of this trace and image, and that this fault is reported.
fn assert_told(
    rt: &impl Abort,
    alloc: Global,
    asked: Asked,
    (trace, file, shared_words): (&[u8], io::Result<&[u8]>, u32),
    (fault, status): (&str, u8),
) {
    let ran = run(alloc, asked, trace, file, shared_words);
    assert_same!(rt; ran.err.as_slice(), fault.as_bytes());
    assert_same!(rt; ran.out.len(), 0, fault);
    assert_same!(rt; ran.status, status, fault);
}

/// The second turn stalls, because the first halted the processor.
#[test]
fn step_that_stalls(rt: HostRuntime) -> Result<(), Fail> {
    let alloc = rt.alloc();
    let image = image_of(alloc, "ecall")?;
    let turn = [1, 0, 0, 0, 0, 0, 0, 0, 0, 0, 0, 0];
    let trace = trace_of(alloc, (0, 4, 4), &[turn, turn])?;
    for asked in WHOLE {
        let given = (trace.as_slice(), Ok(image.as_slice()), 1);
        assert_told(&rt, alloc, asked, given, ("ultra: X7 step 1\n", 2));
    }
    Ok(())
}

/// A fault of the trace is reported before one of the image, and a fault of the image before one of the machine's
/// size.
#[test]
fn tells_the_first_fault(rt: HostRuntime) -> Result<(), Fail> {
    let alloc = rt.alloc();
    // Eight shared bytes need two words.
    let image = image_of(alloc, "ebreak\n.shared\n.word 1, 2")?;
    for asked in WHOLE {
        let absent = || Err(io::Error::from(ErrorKind::NotFound));
        let cut = &ONE_TURN[..23];
        assert_told(&rt, alloc, asked, (cut, absent(), 1), ("ultra: X1\n", 2));
        let turn = ONE_TURN.as_slice();
        assert_told(&rt, alloc, asked, (turn, absent(), 1), ("ultra: link\n", 3));
        let given = (turn, Ok(&EBREAK[..51]), 0);
        assert_told(&rt, alloc, asked, given, ("ultra: I1\n", 2));
        let given = (turn, Ok(EBREAK.as_slice()), 0);
        assert_told(&rt, alloc, asked, given, ("ultra: K1\n", 2));
        let given = (turn, Ok(image.as_slice()), 1);
        assert_told(&rt, alloc, asked, given, ("ultra: I5\n", 2));
    }
    Ok(())
}
