//! The command `dis`, from the bytes of an image to the lines of its code: what no clause says of it.

use super::image_of;
use asm_commands::dis_command;
use assembler::AsmError;
use std::alloc::Global;
use std::io::{Read, Write};
use std::test::Fail;
use test_support::{
    Deaf, EBREAK, Endless, HUNDRED_ADDS, Meter, Ran, Source, assert_same, ran, with_bytes,
};

/// The outcome of disassembling a file without comments, with devices for the lines and for standard error.
fn run_on<R: Read + Drop, W: Write + Drop, E: Write + Drop>(
    alloc: Global,
    file: R,
    shared_words: u32,
    lines: W,
    reported: E,
) -> Ran<W, E> {
    ran!(
        lines,
        reported,
        |out, err| dis_command(alloc, &mut Meter::new(file), shared_words, false, out, err)
    )
}

/// The outcome of disassembling a file, with this device for the lines.
fn run<R: Read + Drop, W: Write + Drop>(
    alloc: Global,
    file: R,
    shared_words: u32,
    lines: W,
) -> Ran<W> {
    run_on(alloc, file, shared_words, lines, Vec::new(alloc))
}

/// The outcome of disassembling an image.
fn run_image(alloc: Global, image: &[u8], shared_words: u32) -> Ran<Vec<u8>> {
    run(alloc, image, shared_words, Vec::new(alloc))
}

/// The outcome of disassembling the image of a text.
fn run_text(alloc: Global, text: &str, shared_words: u32) -> Result<Ran<Vec<u8>>, AsmError> {
    let image = image_of(alloc, text)?;
    Ok(run_image(alloc, image.as_slice(), shared_words))
}

/// The lines of the code of `ebreak`.
static LINES: &str = "00010000 00100073 ebreak\n";

/// Texts, and the lines of their code. The words are encoded by hand from the tables of the RISC-V manual.
static LISTED: [(&str, &str); 6] = [
    ("ebreak", "00010000 00100073 ebreak\n"),
    (
        HUNDRED_ADDS,
        "00010000 800002b7 lui x5, 524288
00010004 06400313 addi x6, x0, 100
00010008 00100393 addi x7, x0, 1
0001000c 0072a42f amoadd.w x8, x7, (x5)
00010010 fff30313 addi x6, x6, -1
00010014 fe031ce3 bne x6, x0, -8
00010018 0002a483 lw x9, 0(x5)
0001001c 06400593 addi x11, x0, 100
00010020 00b4ee63 bltu x9, x11, 28
00010024 00100893 addi x17, x0, 1
00010028 04100513 addi x10, x0, 65
0001002c 00000073 ecall
00010030 00000893 addi x17, x0, 0
00010034 00000513 addi x10, x0, 0
00010038 00000073 ecall
0001003c 00100073 ebreak
",
    ),
    // Words that are no instruction, one of them zero. The list ends at the last word that is not zero.
    (
        ".word 0xffffffff\n.zero 4\nebreak\n.zero 8",
        "00010000 ffffffff -\n00010004 00000000 -\n00010008 00100073 ebreak\n",
    ),
    // A last word with only one byte, and bytes of other sections, which are not listed.
    (
        ".byte 0x73\n.local\n.byte 1\n.shared\n.word 2",
        "00010000 00000073 ecall\n",
    ),
    ("", ""),
    (".zero 64\n", ""),
];

/// A place in the image of `ebreak`, the bytes put there, and what is reported.
static REFUSED: [(usize, &[u8], &str); 7] = [
    // e_machine
    (18, &[0x3E], "ultra: I2\n"),
    // e_phnum
    (44, &[0], "ultra: I3\n"),
    // e_phoff
    (28, &[0x39], "ultra: I1\n"),
    // p_filesz
    (68, &[5], "ultra: I4\n"),
    // p_vaddr
    (60, &[0xFD, 0xFF, 0x01], "ultra: I5\n"),
    // p_flags
    (76, &[7], "ultra: I5\n"),
    // e_entry
    (24, &[2], "ultra: I7\n"),
];

/// Places and bytes that move the second segment of an image to the address of the first, as code.
static MOVED: [(usize, u8); 5] = [(92, 0x00), (93, 0x00), (94, 0x01), (95, 0x00), (108, 5)];

#[test]
fn lists_the_code(rt: HostRuntime) -> Result<(), Fail> {
    run_image(rt.alloc(), &EBREAK, 1024).comes_to(0, LINES.as_bytes(), "")?;
    for (text, lines) in &LISTED {
        run_text(rt.alloc(), text, 1024)?.comes_to(0, lines.as_bytes(), "")?;
    }
    Ok(())
}

/// Words, and what follows the words on their lines with comments. `lr.w` has no rs2, so the word with rs2 1 is none.
/// They are encoded by hand from the listing of Zalrsc in the RISC-V manual: funct5 00010 and 00011, aq, rl, rs2, rs1,
/// 010, rd, 0101111.
static COMMENTED: [(u32, &str); 10] = [
    (0x1006_252F, "- # lr.w"), // lr.w a0, (a2)
    (0x1606_252F, "- # lr.w"), // lr.w.aqrl a0, (a2)
    (0x1406_A5AF, "- # lr.w"), // lr.w.aq a1, (a3)
    (0x18B6_252F, "- # sc.w"), // sc.w a0, a1, (a2)
    (0x1EB6_252F, "- # sc.w"), // sc.w.aqrl a0, a1, (a2)
    (0x1AC5_A5AF, "- # sc.w"), // sc.w.rl a1, a2, (a1)
    (0x1016_252F, "-"),
    (0x1006_352F, "-"), // lr.d a0, (a2)
    (0x18B6_352F, "-"), // sc.d a0, a1, (a2)
    (0x00B6_252F, "amoadd.w x10, x11, (x12)"),
];

/// With comments, missing instructions have their names; without, they have none.
#[test]
fn names_missing_instructions(rt: HostRuntime) -> Result<(), Fail> {
    let alloc = rt.alloc();
    for (word, behind) in &COMMENTED {
        let text = format!(in alloc; ".word {word}\n")?;
        let image = image_of(alloc, text.as_str())?;
        for comments in [true, false] {
            let shown = match behind.split_once(" #") {
                Some((plain, _)) if !comments => plain,
                _ => behind,
            };
            let lines = format!(in alloc; "00010000 {word:08x} {shown}\n")?;
            ran!(Vec::new(alloc), Vec::new(alloc), |out, err| {
                dis_command(
                    alloc,
                    &mut Meter::new(image.as_slice()),
                    1024,
                    comments,
                    out,
                    err,
                )
            })
            .comes_to(0, lines.as_bytes(), "")?;
        }
    }
    Ok(())
}

/// Code that fills its region: 16,383 words that are no instruction, and `ebreak`.
#[test]
fn lists_as_many_words_as_code_has(rt: HostRuntime) -> Result<(), Fail> {
    let ran = run_text(rt.alloc(), ".zero 65532\nebreak\n", 1024)?;
    let out = ran.out.as_slice();
    assert_same!(rt; out.len(), 16_383 * 20 + 25);
    assert!(rt; out.starts_with(b"00010000 00000000 -\n00010004 00000000 -\n"));
    assert!(rt; out.ends_with(b"\n0001fff8 00000000 -\n0001fffc 00100073 ebreak\n"));
    assert_same!(rt; ran.status, 0);
    Ok(())
}

#[test]
fn refuses_an_image(rt: HostRuntime) -> Result<(), Fail> {
    for (place, bytes, reported) in &REFUSED {
        let image = with_bytes(EBREAK, *place, bytes);
        run_image(rt.alloc(), &image, 1024).comes_to(2, b"", reported)?;
    }
    Ok(())
}

#[test]
fn refuses_an_image_that_is_cut_short(rt: HostRuntime) -> Result<(), Fail> {
    for cut in 0..88 {
        let reported = match cut {
            0..84 => "ultra: I1\n",
            _ => "ultra: I4\n",
        };
        run_image(rt.alloc(), &EBREAK[..cut], 1024).comes_to(2, b"", reported)?;
    }
    Ok(())
}

#[test]
fn refuses_an_image_of_segments_that_overlap(rt: HostRuntime) -> Result<(), Fail> {
    let mut image = image_of(rt.alloc(), "ebreak\n.local\n.byte 1")?;
    for (place, byte) in &MOVED {
        if let Some(there) = image.as_mut_slice().get_mut(*place) {
            *there = *byte;
        }
    }
    run_image(rt.alloc(), image.as_slice(), 1024).comes_to(2, b"", "ultra: I6\n")
}

#[test]
fn refuses_an_image_without_end(rt: HostRuntime) -> Result<(), Fail> {
    run(rt.alloc(), Endless, 1024, Vec::new(rt.alloc())).comes_to(2, b"", "ultra: I8\n")
}

/// Eight shared bytes need two words.
#[test]
fn reads_for_so_many_words(rt: HostRuntime) -> Result<(), Fail> {
    let text = "ebreak\n.shared\n.word 1, 2";
    run_text(rt.alloc(), text, 2)?.comes_to(0, LINES.as_bytes(), "")?;
    run_text(rt.alloc(), text, 1)?.comes_to(2, b"", "ultra: I5\n")
}

/// Reading the 88 bytes takes 88 calls, and one more to find the end.
#[test]
fn reads_the_file_or_tells_it(rt: HostRuntime) -> Result<(), Fail> {
    for fails_at in 0..91 {
        let file = Source::new(&EBREAK, fails_at);
        let (status, lines, reported) = match fails_at {
            1..90 => (3, "", "ultra: I9\n"),
            _ => (0, LINES, ""),
        };
        run(rt.alloc(), file, 1024, Vec::new(rt.alloc())).comes_to(
            status,
            lines.as_bytes(),
            reported,
        )?;
    }
    Ok(())
}

#[test]
fn tells_that_nothing_can_be_printed(rt: HostRuntime) -> Result<(), Fail> {
    let ran = run(rt.alloc(), EBREAK.as_slice(), 1024, Deaf);
    assert_same!(rt; ran.has_failed, true);
    ran.comes_to(3, b"", "ultra: link\n")
}

/// If standard error fails too, only the exit status shows the fault.
#[test]
fn tells_by_its_status(rt: HostRuntime) -> Result<(), Fail> {
    run_on(rt.alloc(), &EBREAK[..51], 1024, Vec::new(rt.alloc()), Deaf).comes_to(2, b"", "")
}

/// The test runs with each of its allocations refused in turn. The command then does what it does with ample memory, or
/// reports that it is out of memory.
#[test]
fn is_short_of_memory(rt: HostRuntime) -> Result<(), Fail> {
    let lines = Vec::with_capacity(rt.alloc(), 64)?;
    let reported = Vec::with_capacity(rt.alloc(), 64)?;
    run_on(rt.alloc(), EBREAK.as_slice(), 1024, lines, reported).comes_to_or_lacks_memory(
        0,
        LINES.as_bytes(),
        "",
    )
}

/// The same for an image that is refused.
#[test]
fn refusal_is_short_of_memory(rt: HostRuntime) -> Result<(), Fail> {
    let reported = Vec::with_capacity(rt.alloc(), 64)?;
    run_on(rt.alloc(), &EBREAK[..87], 1024, Deaf, reported).comes_to_or_lacks_memory(
        2,
        b"",
        "ultra: I4\n",
    )
}
