//! The command `asm`, from the bytes of a text to the bytes of an image: what no clause says of it.

use super::door::LoopbackPort;
use asm_commands::asm_command;
use command_io::OnFirstWrite;
use std::alloc::Global;
use std::io::{Read, Write};
use std::test::Fail;
use test_support::{Deaf, EBREAK, Endless, Meter, Ran, Sink, Source, assert_same, ran};

/// The outcome of assembling a file, with devices for the image and for standard error.
fn run_on<R: Read + Drop, W: Write + Drop, E: Write + Drop>(
    alloc: Global,
    file: R,
    image: W,
    reported: E,
) -> Ran<W, E> {
    ran!(
        image,
        reported,
        |out, err| asm_command(alloc, &mut Meter::new(file), out, err)
    )
}

/// The outcome of assembling a file, with this device for the image.
fn run<R: Read + Drop, W: Write + Drop>(alloc: Global, file: R, image: W) -> Ran<W> {
    run_on(alloc, file, image, Vec::new(alloc))
}

/// Texts that are refused, and what is reported.
static REFUSED: [(&[u8], &str); 9] = [
    (b"frob x1, x2, x3", "ultra: A1 line 1\n"),
    (b"ebreak\naddi x1, x0\n", "ultra: A2 line 2\n"),
    (b"addi x1, x32, 0", "ultra: A2 line 1\n"),
    (b".local\nebreak", "ultra: A2 line 2\n"),
    (b"addi x1, x0, 2048", "ultra: A3 line 1\n"),
    (b"ebreak\n.byte 1\nebreak\n", "ultra: A3 line 3\n"),
    (b"again:\n\nagain: ebreak", "ultra: A4 line 3\n"),
    (b"# a jump\n\n jal x0, nowhere", "ultra: A5 line 3\n"),
    (b".zero 65536\n.byte 0", "ultra: A6 line 2\n"),
];

/// Bytes that are no text: a byte that UTF-8 never has, and a character that is cut short, each within a comment.
static NO_TEXTS: [&[u8]; 2] = [b"ebreak # \xFF\n", b"ebreak # \xE2\x82"];

/// Texts that are refused, and the exit status.
static FAULTS: [(&[u8], u8); 2] = [(b"frob", 2), (b"\xFF", 3)];

#[test]
fn assembles_a_text(rt: HostRuntime) -> Result<(), Fail> {
    for text in [b"ebreak".as_slice(), b"ebreak # \xE2\x82\xAC"] {
        run(rt.alloc(), text, Vec::new(rt.alloc())).comes_to(0, &EBREAK, "")?;
    }
    Ok(())
}

/// A refused text writes no image, and the line of its fault is reported.
#[test]
fn refuses_a_text(rt: HostRuntime) -> Result<(), Fail> {
    for (text, reported) in &REFUSED {
        run(rt.alloc(), *text, Vec::new(rt.alloc())).comes_to(2, b"", reported)?;
    }
    Ok(())
}

#[test]
fn refuses_what_is_not_text(rt: HostRuntime) -> Result<(), Fail> {
    for bytes in &NO_TEXTS {
        run(rt.alloc(), *bytes, Vec::new(rt.alloc())).comes_to(3, b"", "ultra: link\n")?;
    }
    Ok(())
}

/// Reading the six bytes takes six calls, and a seventh to find the end.
#[test]
fn reads_the_file_or_tells_a_link(rt: HostRuntime) -> Result<(), Fail> {
    for fails_at in 0..9 {
        let file = Source::new(b"ebreak", fails_at);
        let (status, image, reported) = match fails_at {
            1..8 => (3, &[][..], "ultra: link\n"),
            _ => (0, EBREAK.as_slice(), ""),
        };
        run(rt.alloc(), file, Vec::new(rt.alloc())).comes_to(status, image, reported)?;
    }
    Ok(())
}

#[test]
fn refuses_a_text_without_end(rt: HostRuntime) -> Result<(), Fail> {
    run(rt.alloc(), Endless, Vec::new(rt.alloc())).comes_to(4, b"", "ultra: memory\n")
}

/// A writer takes one byte at each call. If it fails at a call, it has the bytes of the calls before.
#[test]
fn tells_that_the_image_is_not_written(rt: HostRuntime) -> Result<(), Fail> {
    for fails_at in 0..90 {
        let sink = Sink::new(Vec::new(rt.alloc()), fails_at);
        let (status, image, reported) = match fails_at {
            1..89 => (3, &EBREAK[..fails_at - 1], "ultra: I9\n"),
            _ => (0, EBREAK.as_slice(), ""),
        };
        run(rt.alloc(), b"ebreak".as_slice(), sink).comes_to(status, image, reported)?;
    }
    run(rt.alloc(), b"ebreak".as_slice(), Deaf).comes_to(3, b"", "ultra: I9\n")
}

/// If standard error fails too, only the exit status shows the fault.
#[test]
fn tells_by_its_status(rt: HostRuntime) -> Result<(), Fail> {
    for (text, status) in &FAULTS {
        run_on(rt.alloc(), *text, Vec::new(rt.alloc()), Deaf).comes_to(*status, b"", "")?;
    }
    Ok(())
}

/// The outcome of assembling a text if the first write opens the image, or fails to.
fn run_behind_door(alloc: Global, text: &[u8], is_shut: bool) -> Ran<OnFirstWrite<LoopbackPort>> {
    run(
        alloc,
        text,
        OnFirstWrite::new(LoopbackPort::new(alloc, is_shut)),
    )
}

#[test]
fn opens_at_the_first_write(rt: HostRuntime) {
    let ran = run_behind_door(rt.alloc(), b"ebreak", false);
    assert_same!(rt; (ran.status, ran.out.opener.openings), (0, 1));
    assert_same!(rt; ran.out.device.as_ref().map(|bytes| bytes.as_slice()), Some(EBREAK.as_slice()));
}

#[test]
fn opens_nothing_for_a_refused_text(rt: HostRuntime) {
    let mut ran = run_behind_door(rt.alloc(), b"frob", false);
    let is_flushed = ran.out.flush().is_ok();
    assert_same!(rt; (ran.status, ran.out.opener.openings, is_flushed), (2, 0, true));
}

#[test]
fn tells_that_the_image_is_not_opened(rt: HostRuntime) {
    let ran = run_behind_door(rt.alloc(), b"ebreak", true);
    assert_same!(rt; (ran.status, ran.out.opener.openings, ran.out.device.is_none()), (3, 1, true));
    assert_same!(rt; ran.err.as_slice(), b"ultra: I9\n".as_slice());
}

/// The test runs with each of its allocations refused in turn. The command then does what it does with ample memory, or
/// reports that it is out of memory.
#[test]
fn is_short_of_memory(rt: HostRuntime) -> Result<(), Fail> {
    let image = Vec::with_capacity(rt.alloc(), 88)?;
    let reported = Vec::with_capacity(rt.alloc(), 64)?;
    run_on(
        rt.alloc(),
        b"start: ebreak".as_slice(),
        Sink::new(image, 0),
        reported,
    )
    .comes_to_or_lacks_memory(0, &EBREAK, "")
}

/// The same for a text that is refused.
#[test]
fn refusal_is_short_of_memory(rt: HostRuntime) -> Result<(), Fail> {
    let reported = Vec::with_capacity(rt.alloc(), 64)?;
    run_on(rt.alloc(), b"addi x1, x0, 2048".as_slice(), Deaf, reported).comes_to_or_lacks_memory(
        2,
        b"",
        "ultra: A3 line 1\n",
    )
}
