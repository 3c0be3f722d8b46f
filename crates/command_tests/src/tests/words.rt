//! The command `words`, from the bytes of a file to the bytes of a report: what no clause says of it.

use command_io::{Fault, report_fault};
use std::alloc::{AllocError, Global};
use std::fmt::Write as _;
use std::io::{Read, Write};
use std::test::Fail;
use test_support::{Broken, Endless, Full, Ran, assert_same, ran};
use words_command::words_command;

/// The outcome of running a file, with this device for the report.
fn run<R: Read + Drop, W: Write + Drop>(alloc: Global, file: R, device: W) -> Ran<W> {
    ran!(
        device,
        Vec::new(alloc),
        |out, err| words_command(alloc, file, out, err)
    )
}

/// The outcome of running these lines.
fn run_text(alloc: Global, text: &[u8]) -> Ran<Vec<u8>> {
    run(alloc, text, Vec::new(alloc))
}

/// A report in which only these registers are not 0, with these last lines.
fn report_with(alloc: Global, registers: &[(u8, u32)], end: &str) -> Result<String, AllocError> {
    let mut text = String::new(alloc);
    for number in 0..32u8 {
        let mut value = 0;
        for (register, held) in registers {
            if *register == number {
                value = *held;
            }
        }
        write!(text, "x{number} {value:08x}\n")?;
    }
    text.push_str(end)?;
    Ok(text)
}

/// A program, its registers that are not 0, the two last lines of its report, and the exit status.
type Row = (&'static str, &'static [(u8, u32)], &'static str, u8);

/// Programs and their reports, with values worked out by hand from the RISC-V manual.
static REPORTED: [Row; 9] = [
    // A store of -1 to a shared word, a fetch-and-add of 1 to it, and a load of it.
    (
        "800002B7\nFFF00313\n0062A023\n00100393\n0072A42F\n0002A483\n00000073\n",
        &[(5, 0x8000_0000), (6, 0xFFFF_FFFF), (7, 1), (8, 0xFFFF_FFFF)],
        "pc 00010018\nhalt 00\n",
        0,
    ),
    // The same in lower case, without the last LF.
    (
        "800002b7\nfff00313\n0062a023\n00100393\n0072a42f\n0002a483\n00000073",
        &[(5, 0x8000_0000), (6, 0xFFFF_FFFF), (7, 1), (8, 0xFFFF_FFFF)],
        "pc 00010018\nhalt 00\n",
        0,
    ),
    // addi x1, x0, 1, and then a word that is no instruction.
    ("00100093", &[(1, 1)], "pc 00010004\nfault 1\n", 1),
    ("", &[], "pc 00010000\nfault 1\n", 1),
    // addi x10, x0, 0x141, and a halt with its low byte.
    (
        "14100513\n00000073\n",
        &[(10, 0x141)],
        "pc 00010004\nhalt 41\n",
        0,
    ),
    // ebreak
    ("00100073\n", &[], "pc 00010000\nfault 8\n", 1),
    // A jump out of code: the fault is at the target.
    (
        "000400B7\n00008067\n",
        &[(1, 0x0004_0000)],
        "pc 00040000\nfault 2\n",
        1,
    ),
    // jal ra, 2: ra is not written.
    ("002000EF\n", &[], "pc 00010000\nfault 3\n", 1),
    // sw x0, 0(x5) at the first word of code.
    (
        "000102B7\n0002A023\n",
        &[(5, 0x0001_0000)],
        "pc 00010004\nfault 6\n",
        1,
    ),
];

/// Files that are refused, with the first bad line.
static REFUSED: [(&str, &str); 9] = [
    ("00100093\n0010009", "ultra: V1 line 2\n"),
    ("\n", "ultra: V1 line 1\n"),
    ("00000073\n\n", "ultra: V1 line 2\n"),
    ("0000007G\n", "ultra: V1 line 1\n"),
    ("+0000073\n", "ultra: V1 line 1\n"),
    (" 0000073\n", "ultra: V1 line 1\n"),
    ("000000733\n", "ultra: V1 line 1\n"),
    ("00000073\r\n", "ultra: V1 line 1\n"),
    ("00000073\n0x000073\n", "ultra: V1 line 2\n"),
];

#[test]
fn reports_the_processor(rt: HostRuntime) -> Result<(), Fail> {
    for (text, registers, end, status) in &REPORTED {
        let report = report_with(rt.alloc(), registers, end)?;
        run_text(rt.alloc(), text.as_bytes()).comes_to(*status, report.as_bytes(), "")?;
    }
    Ok(())
}

#[test]
fn refuses_what_is_no_program(rt: HostRuntime) -> Result<(), Fail> {
    for (text, reported) in &REFUSED {
        run_text(rt.alloc(), text.as_bytes()).comes_to(2, b"", reported)?;
    }
    Ok(())
}

/// This many lines of `addi x0, x0, 0`.
fn idle_lines(alloc: Global, count: usize) -> Result<Vec<u8>, AllocError> {
    let mut text = Vec::new(alloc);
    for _ in 0..count {
        text.extend_from_slice(b"00000013\n")?;
    }
    Ok(text)
}

#[test]
fn takes_as_many_lines_as_code_has_words(rt: HostRuntime) -> Result<(), Fail> {
    let whole = idle_lines(rt.alloc(), 16_384)?;
    let report = report_with(rt.alloc(), &[], "pc 00020000\nfault 2\n")?;
    run_text(rt.alloc(), whole.as_slice()).comes_to(1, report.as_bytes(), "")
}

#[test]
fn takes_no_line_more(rt: HostRuntime) -> Result<(), Fail> {
    let over = idle_lines(rt.alloc(), 16_385)?;
    run_text(rt.alloc(), over.as_slice()).comes_to(2, b"", "ultra: V1 line 16385\n")
}

#[test]
fn ends_a_program_that_goes_on(rt: HostRuntime) -> Result<(), Fail> {
    run_text(rt.alloc(), b"00000063\n").comes_to(4, b"", "ultra: budget\n")
}

#[test]
fn tells_what_the_outside_refuses(rt: HostRuntime) -> Result<(), Fail> {
    let alloc = rt.alloc();
    run(alloc, Broken, Vec::new(alloc)).comes_to(3, b"", "ultra: link\n")?;
    run(alloc, Endless, Vec::new(alloc)).comes_to(2, b"", "ultra: V1 line 1\n")?;

    // A failure of standard output decides the exit status, and not the processor's fault. The status is the same if
    // standard error fails too.
    let ran = run(alloc, b"00100093".as_slice(), Full);
    assert!(rt; ran.has_failed);
    ran.comes_to(3, b"", "ultra: link\n")?;
    assert_same!(rt; report_fault(Fault::Memory, &mut Full), 4);
    Ok(())
}
