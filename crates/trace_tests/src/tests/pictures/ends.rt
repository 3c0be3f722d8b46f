//! What is reported if no picture is drawn, and the exit statuses.

use super::run;
use link::Meter;
use machine_picture::Svg;
use std::alloc::Global;
use std::io::{self, ErrorKind};
use std::process::Abort;
use std::test::Fail;
use test_support::{Deaf, EBREAK, Sink, Source, assert_same, image_of, metered, trace_of};
use trace_commands::{Picture, trace_command};

/// The picture after all steps.
const WHOLE: Picture<Svg<'static>> = Picture {
    step: None,
    drawing: Svg { names: None },
};

/// A turn of processor 0.
static TURN: [u8; 12] = [1, 0, 0, 0, 0, 0, 0, 0, 0, 0, 0, 0];

/// Checks that nothing is printed of this trace and image, and that this fault is reported.
fn assert_told(
    rt: &impl Abort,
    alloc: Global,
    (trace, file, shared_words): (&[u8], io::Result<&[u8]>, u32),
    (fault, status): (&str, u8),
) {
    let ran = run(alloc, trace, file, shared_words, Some(0));
    assert_same!(rt; ran.err.as_slice(), fault.as_bytes());
    assert_same!(rt; ran.out.len(), 0, fault);
    assert_same!(rt; ran.status, status, fault);
}

/// A picture before the first step is refused as `replay` refuses the trace: a fault of the trace is reported before
/// one of the image, a fault of the image before one of the machine's size, and a step that stalls is a fault.
#[test]
fn tells_the_first_fault(rt: HostRuntime) -> Result<(), Fail> {
    let alloc = rt.alloc();
    let turn = trace_of(alloc, (0, 4, 4), &[TURN])?;
    let turn = turn.as_slice();
    let twice = trace_of(alloc, (0, 4, 4), &[TURN, TURN])?;
    let absent = || Err(io::Error::from(ErrorKind::NotFound));
    let cut = turn.split_last().map_or(turn, |(_, rest)| rest);
    assert_told(&rt, alloc, (cut, absent(), 1), ("ultra: X1\n", 2));
    assert_told(&rt, alloc, (turn, absent(), 1), ("ultra: link\n", 3));
    assert_told(&rt, alloc, (turn, Ok(&EBREAK[..51]), 0), ("ultra: I1\n", 2));
    assert_told(
        &rt,
        alloc,
        (turn, Ok(EBREAK.as_slice()), 0),
        ("ultra: K1\n", 2),
    );
    let again = (twice.as_slice(), Ok(EBREAK.as_slice()), 1);
    assert_told(&rt, alloc, again, ("ultra: X7 step 1\n", 2));
    Ok(())
}

/// The exit status reports the fault of a processor only if the picture shows it.
#[test]
fn tells_a_fault_that_is_drawn(rt: HostRuntime) -> Result<(), Fail> {
    let alloc = rt.alloc();
    let image = image_of(alloc, "addi x1, x0, 1\nebreak")?;
    let trace = trace_of(alloc, (0, 4, 4), &[TURN, TURN])?;
    for (step, shown, wanted) in [
        (0, ">0 run 00010000<", 0),
        (1, ">0 run 00010004<", 0),
        (2, ">0 fault 8 00010004<", 1),
    ] {
        let ran = run(alloc, trace.as_slice(), Ok(image.as_slice()), 1, Some(step));
        assert!(rt;
            str::from_utf8(ran.out.as_slice())?.contains(shown),
            "{shown}"
        );
        assert_same!(rt; ran.status, wanted);
    }
    Ok(())
}

/// If a write fails, the picture is printed up to it.
#[test]
fn picture_that_cannot_be_printed(rt: HostRuntime) -> Result<(), Fail> {
    let alloc = rt.alloc();
    let trace = trace_of(alloc, (0, 4, 4), &[TURN])?;
    let trace = trace.as_slice();
    let whole = run(alloc, trace, Ok(EBREAK.as_slice()), 1, None);
    for fails_at in [1, 2, whole.out.len()] {
        let mut out = Meter::new(Sink::new(Vec::new(alloc), fails_at));
        let mut err = Vec::new(alloc);
        let (mut trace, mut file) = (Meter::new(trace), metered(Ok(EBREAK.as_slice())));
        let status = trace_command(alloc, &mut trace, &mut file, 1, &WHOLE, &mut out, &mut err);
        assert_same!(rt; Some(out.device.bytes.as_slice()), whole.out.get(..fails_at.saturating_sub(1)));
        assert_same!(rt; err.as_slice(), b"ultra: link\n".as_slice());
        assert_same!(rt; status, 3);
    }
    Ok(())
}

/// A trace and an image that cannot be read. If standard error fails too, only the exit status reports the fault.
#[test]
fn files_that_cannot_be_read(rt: HostRuntime) -> Result<(), Fail> {
    let alloc = rt.alloc();
    let turn = trace_of(alloc, (0, 4, 4), &[TURN])?;
    let mut out = Meter::new(Vec::new(alloc));
    let mut trace = Meter::new(Source::new(turn.as_slice(), 5));
    let mut file = metered(Ok(EBREAK.as_slice()));
    let status = trace_command(alloc, &mut trace, &mut file, 1, &WHOLE, &mut out, &mut Deaf);
    assert_same!(rt; out.device.len(), 0);
    assert_same!(rt; status, 3);
    let mut out = Meter::new(Vec::new(alloc));
    let mut err = Vec::new(alloc);
    let mut trace = Meter::new(turn.as_slice());
    let mut file = metered(Ok(Source::new(&EBREAK, 5)));
    let status = trace_command(alloc, &mut trace, &mut file, 1, &WHOLE, &mut out, &mut err);
    assert_same!(rt; err.as_slice(), b"ultra: I9\n".as_slice());
    assert_same!(rt; out.device.len(), 0);
    assert_same!(rt; status, 3);
    Ok(())
}

/// `tests/cli/memory.sh` refuses each request of this test for memory in turn. The picture is whole, or there is none.
#[test]
fn is_short_of_memory(rt: HostRuntime) -> Result<(), Fail> {
    let alloc = rt.alloc();
    let turn = trace_of(alloc, (0, 4, 4), &[TURN])?;
    let mut out = Meter::new(Sink::new(Vec::with_capacity(alloc, 4096)?, 0));
    let mut err = Vec::with_capacity(alloc, 64)?;
    let mut trace = Meter::new(turn.as_slice());
    let mut file = metered(Ok(EBREAK.as_slice()));
    match trace_command(alloc, &mut trace, &mut file, 1, &WHOLE, &mut out, &mut err) {
        1 => assert!(rt; out.device.bytes.ends_with(b"</svg>\n")),
        status => {
            assert_same!(rt; status, 4);
            assert_same!(rt; err.as_slice(), b"ultra: memory\n".as_slice());
            assert_same!(rt; out.device.bytes.len(), 0);
        }
    }
    Ok(())
}
