//! The list of a text's faults: what no clause says of it. Lists are worked out by hand from docs/ASSEMBLER.md.

use asm_commands::{asm_command, check_command};
use std::alloc::{AllocError, Global};
use std::fmt::Write as _;
use std::io::{Read, Write};
use std::test::Fail;
use test_support::{Deaf, Endless, HUNDRED_ADDS, Meter, Ran, Sink, Source, ran};

/// The outcome of checking a file, with this device for the list.
fn run<R: Read + Drop, W: Write + Drop>(alloc: Global, file: R, device: W) -> Ran<W> {
    ran!(
        device,
        Vec::new(alloc),
        |out, err| check_command(alloc, &mut Meter::new(file), out, err)
    )
}

/// The outcome of checking a text.
fn run_text(alloc: Global, text: &[u8]) -> Ran<Vec<u8>> {
    run(alloc, text, Vec::new(alloc))
}

/// Texts with one fault each, and the line that reports it.
static ONE_FAULT: [(&str, &str); 40] = [
    // First words.
    (
        "frob x1",
        "line 1 column 1: A1 frob: there is no such instruction or directive",
    ),
    (
        " ADD a0, a1, a2",
        "line 1 column 2: A1 ADD: there is no such instruction or directive; there is add",
    ),
    (
        "amoadd a0, a1, (a2)",
        "line 1 column 1: A1 amoadd: there is no such instruction or directive; there is amoadd.w",
    ),
    (
        "1: ebreak",
        "line 1 column 1: A1 1:: a label's name is a letter or _, and then letters, digits and _",
    ),
    (
        "again",
        "line 1 column 1: A1 again: there is no such instruction; a label ends with a colon",
    ),
    (
        "ecaxx",
        "line 1 column 1: A1 ecaxx: there is no such instruction; a label ends with a colon",
    ),
    (
        "ebrexx",
        "line 1 column 1: A1 ebrexx: there is no such instruction or directive; there is ebreak",
    ),
    // Operands.
    (
        "add a0, a1, x32",
        "line 1 column 13: A2 x32: there is no such register; registers are x0 to x31 and names such as a0",
    ),
    (
        "start:\tadd a0 , a8, a1 # a8",
        "line 1 column 17: A2 a8: there is no such register; registers are x0 to x31 and names such as a0",
    ),
    (
        "add a0, a1",
        "line 1 column 11: A2: the operands are rd, rs1, rs2",
    ),
    ("add", "line 1 column 4: A2: the operands are rd, rs1, rs2"),
    (
        "add a0, a1, a2, a3",
        "line 1 column 17: A2 a3: the operands are rd, rs1, rs2",
    ),
    (
        "add a0 a1, a2",
        "line 1 column 5: A2 a0 a1: a comma is missing; the operands are rd, rs1, rs2",
    ),
    (
        "ecall a0",
        "line 1 column 7: A2 a0: no operand belongs here",
    ),
    (
        "lw a0, 4(sp",
        "line 1 column 8: A2 4(sp: a bracket is missing; an address is i(rs1) or (rs1)",
    ),
    (
        "lw a0, 4",
        "line 1 column 8: A2 4: an address belongs here, i(rs1)",
    ),
    (
        "lw a0, 4( s12 )",
        "line 1 column 11: A2 s12: there is no such register; registers are x0 to x31 and names such as a0",
    ),
    (
        "amoadd.w a0, a1, 0(a2)",
        "line 1 column 18: A2 0: a register in brackets belongs here, (rs1)",
    ),
    (
        "addi a0, a1, +1",
        "line 1 column 14: A2 +1: a number from -2048 to 2047 or %lo(label) belongs here",
    ),
    (
        "lui a0, start",
        "line 1 column 9: A2 start: a number from 0 to 1048575 or %hi(label) belongs here",
    ),
    (
        "jal ra, 8x",
        "line 1 column 9: A2 8x: a label or a number from -1048576 to 1048574 belongs here",
    ),
    (
        ".byte 1, start",
        "line 1 column 10: A2 start: a number from -128 to 255 belongs here",
    ),
    (
        ".local\nebreak",
        "line 2 column 1: A2 ebreak: instructions belong in .code",
    ),
    (".code 1", "line 1 column 7: A2 1: no operand belongs here"),
    // Ranges.
    (
        "addi a0, a0, 2048",
        "line 1 column 14: A3 2048: the number is not from -2048 to 2047",
    ),
    (
        "lw a0, -2049(a1)",
        "line 1 column 8: A3 -2049: the number is not from -2048 to 2047",
    ),
    (
        "slli a0, a0, 32",
        "line 1 column 14: A3 32: the number is not from 0 to 31",
    ),
    (
        "lui a0, 0x12345678",
        "line 1 column 9: A3 0x12345678: this takes 20 bits, 0 to 1048575; the upper 20 of this word are 74565",
    ),
    (
        ".word 1, 4294967296",
        "line 1 column 10: A3 4294967296: the number is not from -2147483648 to 4294967295",
    ),
    (
        "jal ra, 1048576",
        "line 1 column 9: A3 1048576: the number is not from -1048576 to 1048574",
    ),
    (
        "fence x0, x0, 4096",
        "line 1 column 15: A3 4096: the number is not from 0 to 4095",
    ),
    (
        ".zero 1048577",
        "line 1 column 7: A3 1048577: the number is not from 0 to 1048576",
    ),
    (
        ".byte 1\nebreak",
        "line 2 column 1: A3 ebreak: its address 00010001 is not divisible by 4",
    ),
    (
        "beq a0, a1, 3",
        "line 1 column 13: A3 3: the distance of a target is even",
    ),
    (
        "beq a0, a1, far\n.zero 4096\nfar:",
        "line 1 column 13: A3 far: the label is 4100 bytes away, and from -4096 to 4094 can be reached",
    ),
    // Labels and room.
    (
        "a: ebreak\n\n a : ebreak",
        "line 3 column 2: A4 a: line 1 has this label already",
    ),
    (
        "loop: jal ra, lop",
        "line 1 column 15: A5 lop: there is no such label; there is loop",
    ),
    (
        "coun:\ncounts:\ncountyy: jal ra, countx",
        "line 3 column 18: A5 countx: there is no such label; there is counts",
    ),
    (
        "lui a0, %hi( there )",
        "line 1 column 14: A5 there: there is no such label",
    ),
    (
        ".zero 65535\n.zero 2",
        "line 2 column 1: A6 .zero: .code has room for 65536 bytes, and 65535 are used before this",
    ),
];

#[test]
fn lists_one_fault(rt: HostRuntime) -> Result<(), Fail> {
    for (text, line) in &ONE_FAULT {
        let list = format!(in rt.alloc(); "{line}\n1 fault\n")?;
        run_text(rt.alloc(), text.as_bytes()).comes_to(1, list.as_bytes(), "")?;
    }
    Ok(())
}

/// Words of other assemblers, and what does the same here. Instructions follow the table of pseudoinstructions of the
/// RISC-V manual (Volume I, "RISC-V Assembly Programmer's Handbook"); GNU as expands `sgt`, `sgtu` and `subi` so.
static ELSEWHERE: [(&str, &str); 35] = [
    ("nop", "addi x0, x0, 0"),
    ("mv", "addi a, b, 0"),
    ("li", "addi a, x0, n, or lui and addi,"),
    ("la", "lui a, %hi(label) and addi a, a, %lo(label)"),
    ("not", "xori a, b, -1"),
    ("neg", "sub a, x0, b"),
    ("subi", "addi a, b, -n"),
    ("seqz", "sltiu a, b, 1"),
    ("snez", "sltu a, x0, b"),
    ("sltz", "slt a, b, x0"),
    ("sgtz", "slt a, x0, b"),
    ("sgt", "slt a, c, b"),
    ("sgtu", "sltu a, c, b"),
    ("j", "jal x0, label"),
    ("jr", "jalr x0, 0(a)"),
    ("call", "jal ra, label"),
    ("tail", "jal x0, label"),
    ("ret", "jalr x0, 0(ra)"),
    ("beqz", "beq a, x0, label"),
    ("bnez", "bne a, x0, label"),
    ("blez", "bge x0, a, label"),
    ("bgez", "bge a, x0, label"),
    ("bltz", "blt a, x0, label"),
    ("bgtz", "blt x0, a, label"),
    ("bgt", "blt b, a, label"),
    ("ble", "bge b, a, label"),
    ("bgtu", "bltu b, a, label"),
    ("bleu", "bgeu b, a, label"),
    (".text", ".code"),
    (".data", ".local or .shared"),
    (".bss", ".local or .shared"),
    (".section", ".code, .local or .shared"),
    (".space", ".zero n"),
    (".skip", ".zero n"),
    (".ascii", ".byte with a number for each letter"),
];

/// Directives of other assemblers that nothing need replace here, and why.
static NOT_NEEDED: [(&str, &str); 6] = [
    (".globl", "all names are the text's own"),
    (".global", "all names are the text's own"),
    (".align", "data go on where they ended"),
    (".option", "each line has the instruction that it names"),
    (".type", "a label names only a place"),
    (".size", "a label names only a place"),
];

#[test]
fn advises_what_does_the_same(rt: HostRuntime) -> Result<(), Fail> {
    let alloc = rt.alloc();
    for (word, same) in &ELSEWHERE {
        let text = format!(in alloc; "{word} a0, a1, a2")?;
        let list = format!(in alloc;
            "line 1 column 1: A1 {word}: there is no such word here; {same} does the same\n1 fault\n"
        )?;
        run_text(alloc, text.as_bytes()).comes_to(1, list.as_bytes(), "")?;
    }
    for (word, why) in &NOT_NEEDED {
        let text = format!(in alloc; "{word} start")?;
        let list = format!(in alloc;
            "line 1 column 1: A1 {word}: there is no such word here, and nothing is needed: {why}\n1 fault\n"
        )?;
        run_text(alloc, text.as_bytes()).comes_to(1, list.as_bytes(), "")?;
    }
    Ok(())
}

/// What `asm` reports of a text for which `check` lists this line.
fn told_by_asm(alloc: Global, line: &str) -> Result<String, Fail> {
    let mut words = line.split(' ');
    let number = words.nth(1).ok_or("a number")?;
    let code = words.nth(2).ok_or("a code")?.trim_end_matches(':');
    Ok(format!(in alloc; "ultra: {code} line {number}\n")?)
}

/// `asm` reports the first fault that it finds; `check` lists one with the same line and code.
#[test]
fn has_what_assembling_tells(rt: HostRuntime) -> Result<(), Fail> {
    let alloc = rt.alloc();
    for (text, line) in &ONE_FAULT {
        let reported = told_by_asm(alloc, line)?;
        let text = text.as_bytes();
        ran!(
            Vec::new(alloc),
            Vec::new(alloc),
            |out, err| asm_command(alloc, &mut Meter::new(text), out, err)
        )
        .comes_to(2, b"", reported.as_str())?;
    }
    Ok(())
}

/// A line that cannot be read adds no bytes and no label; any other line adds its bytes and its label. If a label is on
/// two lines, the later one counts.
static MANY: &str = "\
start:  add a0, a1, x32     # nothing of this line counts
again:  jal x0, start
        .byte 1
again:  addi a0, x0, 5
        .byte 1, 2, 3
        beq a0, a1, again
\u{e9}dit: ebreak
        .zero 65536
        ebreak
";

static MANY_FAULTS: &str = "\
line 1 column 21: A2 x32: there is no such register; registers are x0 to x31 and names such as a0
line 2 column 17: A5 start: there is no such label
line 4 column 1: A4 again: line 2 has this label already
line 6 column 21: A3 again: the distance of a target is even
line 7 column 1: A1 \\xc3\\xa9dit:: a label's name is a letter or _, and then letters, digits and _
line 8 column 9: A6 .zero: .code has room for 65536 bytes, and 16 are used before this
line 9 column 9: A6 ebreak: .code has room for 65536 bytes, and 65552 are used before this
7 faults
";

#[test]
fn lists_each_line(rt: HostRuntime) -> Result<(), Fail> {
    run_text(rt.alloc(), MANY.as_bytes()).comes_to(1, MANY_FAULTS.as_bytes(), "")
}

/// A label on three lines: the reports on the later two both name the first.
static ON_THREE_LINES: &str = "\
line 2 column 1: A4 a: line 1 has this label already
line 3 column 1: A4 a: line 1 has this label already
2 faults
";

#[test]
fn tells_the_first_line_of_a_label(rt: HostRuntime) -> Result<(), Fail> {
    run_text(rt.alloc(), b"a:\na:\na:").comes_to(1, ON_THREE_LINES.as_bytes(), "")
}

/// Texts without a fault.
static SOUND: [&str; 4] = ["", "\n\n# nothing\n", "ebreak", HUNDRED_ADDS];

#[test]
fn lists_nothing_of_a_sound_text(rt: HostRuntime) -> Result<(), Fail> {
    for text in &SOUND {
        run_text(rt.alloc(), text.as_bytes()).comes_to(0, b"no faults\n", "")?;
    }
    Ok(())
}

/// A thousand faulty lines, each after a line without a fault.
fn thousand(alloc: Global) -> Result<String, AllocError> {
    let mut text = String::new(alloc);
    for _ in 0..1000 {
        text.push_str("ebreak\n frob\n")?;
    }
    Ok(text)
}

/// The list of their faults.
fn thousand_faults(alloc: Global) -> Result<String, AllocError> {
    let mut list = String::new(alloc);
    for number in 0..1000_u16 {
        let line = 2 * u32::from(number) + 2;
        writeln!(
            list,
            "line {line} column 2: A1 frob: there is no such instruction; a label ends with a colon"
        )?;
    }
    list.push_str("1000 faults\n")?;
    Ok(list)
}

#[test]
fn lists_a_thousand(rt: HostRuntime) -> Result<(), Fail> {
    let text = thousand(rt.alloc())?;
    let list = thousand_faults(rt.alloc())?;
    let ran = run_text(rt.alloc(), text.as_bytes());
    assert!(rt; ran.out.as_slice() == list.as_bytes());
    Ok(())
}

/// A word of 65 characters, and the line that shows its first 64.
static LONG_WORD: (&str, &str) = (
    "%%%%%%%%%%%%%%%%%%%%%%%%%%%%%%%%%%%%%%%%%%%%%%%%%%%%%%%%%%%%%%%%%",
    "line 1 column 1: A1 %%%%%%%%%%%%%%%%%%%%%%%%%%%%%%%%%%%%%%%%%%%%%%%%%%%%%%%%%%%%%%%%..: there is no such instruction or directive
1 fault
",
);

#[test]
fn tells_the_beginning_of_a_long_word(rt: HostRuntime) -> Result<(), Fail> {
    let (text, list) = LONG_WORD;
    run_text(rt.alloc(), text.as_bytes()).comes_to(1, list.as_bytes(), "")
}

#[test]
fn refuses_what_is_no_text(rt: HostRuntime) -> Result<(), Fail> {
    let alloc = rt.alloc();
    run_text(alloc, b"frob # \xFF\n").comes_to(3, b"", "ultra: link\n")?;
    run(alloc, Endless, Vec::new(alloc)).comes_to(4, b"", "ultra: memory\n")?;
    run(alloc, Source::new(b"frob", 3), Vec::new(alloc)).comes_to(3, b"", "ultra: link\n")
}

/// A writer takes one byte at each call. If it fails at a call, it has the bytes of the calls before.
#[test]
fn tells_that_the_list_is_not_printed(rt: HostRuntime) -> Result<(), Fail> {
    for fails_at in 1..11 {
        let sink = Sink::new(Vec::new(rt.alloc()), fails_at);
        let list = &b"no faults\n"[..fails_at - 1];
        run(rt.alloc(), b"ebreak".as_slice(), sink).comes_to(3, list, "ultra: link\n")?;
    }
    run(rt.alloc(), b"frob".as_slice(), Deaf).comes_to(3, b"", "ultra: link\n")
}

/// The test runs with each of its allocations refused in turn. The command then does what it does with ample memory, or
/// reports that it is out of memory.
#[test]
fn is_short_of_memory(rt: HostRuntime) -> Result<(), Fail> {
    let alloc = rt.alloc();
    let list = Sink::new(Vec::with_capacity(alloc, 128)?, 0);
    let reported = Vec::with_capacity(alloc, 64)?;
    let text = &mut Meter::new(b"lop: jal ra, loop".as_slice());
    let ran = ran!(
        list,
        reported,
        |out, err| check_command(alloc, text, out, err)
    );
    match ran.status {
        1 => ran.comes_to(
            1,
            b"line 1 column 14: A5 loop: there is no such label; there is lop\n1 fault\n",
            "",
        ),
        _ => ran.comes_to(4, b"", "ultra: memory\n"),
    }
}
