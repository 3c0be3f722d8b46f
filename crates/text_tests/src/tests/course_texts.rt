//! Course texts. Plain lines and lists of faults are worked out by hand from the RISC-V manual's tables of
//! pseudoinstructions, and from docs/ASSEMBLER.md.

use asm_commands::{course_asm_command, course_check_command};
use assembler::assemble;
use course_text::{course_text, laws};
use std::alloc::Global;
use std::test::Fail;
use test_support::{Endless, Meter, Ran, assert_same, ran};

// Below, each text is followed by `=>` and its plain lines, and texts are set apart by `;`, each on a line of its own.

/// The manual's tables of pseudoinstructions.
const MANUAL: &str = "\
nop
=>
addi x0, x0, 0
;
la a0, x
=>
lui a0, %hi(x)
addi a0, a0, %lo(x)
;
mv a0, t1
=>
addi a0, t1, 0
;
not a0, a1
=>
xori a0, a1, -1
;
neg s0, s1
=>
sub s0, x0, s1
;
seqz a0, a1
=>
sltiu a0, a1, 1
;
snez a0, a1
=>
sltu a0, x0, a1
;
sltz a0, a1
=>
slt a0, a1, x0
;
sgtz a0, a1
=>
slt a0, x0, a1
;
beqz t0, x
=>
beq t0, x0, x
;
bnez t0, x
=>
bne t0, x0, x
;
blez t0, x
=>
bge x0, t0, x
;
bgez t0, x
=>
bge t0, x0, x
;
bltz t0, x
=>
blt t0, x0, x
;
bgtz t0, x
=>
blt x0, t0, x
;
bgt t0, t1, x
=>
blt t1, t0, x
;
ble t0, t1, x
=>
bge t1, t0, x
;
bgtu t0, t1, x
=>
bltu t1, t0, x
;
bleu t0, t1, x
=>
bgeu t1, t0, x
;
j x
=>
jal x0, x
;
jal x
=>
jal ra, x
;
jr t0
=>
jalr x0, 0(t0)
;
jalr t0
=>
jalr ra, 0(t0)
;
ret
=>
jalr x0, 0(ra)
;
call x
=>
jal ra, x
;
tail x
=>
jal x0, x
;
fence
=>
fence x0, x0, 255";

/// Loads and stores at a label.
const AT_LABELS: &str = "\
lw a0, x
=>
lui a0, %hi(x)
lw a0, %lo(x)(a0)
;
lh a0, x
=>
lui a0, %hi(x)
lh a0, %lo(x)(a0)
;
lb a0, x
=>
lui a0, %hi(x)
lb a0, %lo(x)(a0)
;
lbu a0, x
=>
lui a0, %hi(x)
lbu a0, %lo(x)(a0)
;
lhu a0, x
=>
lui a0, %hi(x)
lhu a0, %lo(x)(a0)
;
sw a0, x, t0
=>
lui t0, %hi(x)
sw a0, %lo(x)(t0)
;
sh a0, x, t0
=>
lui t0, %hi(x)
sh a0, %lo(x)(t0)
;
sb a0, x, t0
=>
lui t0, %hi(x)
sb a0, %lo(x)(t0)";

/// Addresses.
const ADDRESSES: &str = "\
lw t0, (a0)
=>
lw t0, 0(a0)
;
lbu t0, ( a0 )
=>
lbu t0, 0( a0 )
;
sw t0, (a0)
=>
sw t0, 0(a0)
;
jalr ra, (a0)
=>
jalr ra, 0(a0)
;
jalr ra, a0
=>
jalr ra, 0(a0)
;
jalr ra, a0, 8
=>
jalr ra, 8(a0)
;
amoadd.w a0, a1, 0(a2)
=>
amoadd.w a0, a1, (a2)
;
amoswap.w.aqrl a0, a1, 0(a2)
=>
amoswap.w.aqrl a0, a1, (a2)";

/// Fences: i is 8, o is 4, r is 2, w is 1, and the first set is in the upper four bits.
const FENCES: &str = "\
fence rw, rw
=>
fence x0, x0, 51
;
fence iorw, iorw
=>
fence x0, x0, 255
;
fence w, r
=>
fence x0, x0, 18
;
fence i , o
=>
fence x0, x0, 132";

/// Numbers: 1000 in hex is 0x3e8; 0x12345678 is 0x12345 and 0x678; 0xdeadbeef is 0xdeadc and 0xeef - 0x1000.
const NUMBERS: &str = "\
li a0, 0
=>
addi a0, x0, 0
;
li a0, 2047
=>
addi a0, x0, 2047
;
li a0, -2048
=>
addi a0, x0, -2048
;
li a0, 0x7ff
=>
addi a0, x0, 0x7ff
;
li a0, 2048
=>
lui a0, 1
addi a0, a0, -2048
;
li a0, -2049
=>
lui a0, 1048575
addi a0, a0, 2047
;
li a0, 4096
=>
lui a0, 1
addi a0, a0, 0
;
li a0, 0x12345678
=>
lui a0, 74565
addi a0, a0, 1656
;
li a0, 0xdeadbeef
=>
lui a0, 912092
addi a0, a0, -273
;
li a0, -2147483648
=>
lui a0, 524288
addi a0, a0, 0
;
li a0, 2147483647
=>
lui a0, 524288
addi a0, a0, -1
;
li a0, 4294967295
=>
lui a0, 0
addi a0, a0, -1";

/// Directives.
const DIRECTIVES: &str = "\
.text
=>
.code
;
.data
=>
.shared
;
.bss
=>
.shared
;
.section .text
=>
.code
;
.section .text.startup, \"ax\", @progbits
=>
.code
;
.section .rodata
=>
.code
;
.section .data
=>
.shared
;
.section .bss
=>
.shared
;
.section .sdata
=>
.shared
;
.section .sbss
=>
.shared
;
.section .local
=>
.local
;
.globl x
=>

;
.global x
=>

;
.type x, @function
=>

;
.size x, 4
=>

;
.option norvc
=>

;
.file \"a.c\"
=>

;
.attribute arch, \"rv32im\"
=>

;
.space 8
=>
.zero 8
;
.skip 8
=>
.zero 8";

/// Labels and comments.
const LABELS: &str = "\
x: nop # nothing
=>
x: addi x0, x0, 0
;
\tx :\tla\ta0 ,\ty
=>
x: lui a0, %hi(y)
addi a0, a0, %lo(y)
;
x: .globl x
=>
x:\x20";

/// Alignments.
const ALIGNMENTS: &str = "\
.byte 1
.align 2
.word 1
=>
.byte 1
.zero 3
.word 1
;
.byte 1
.p2align 3
=>
.byte 1
.zero 7
;
.byte 1, 2
.balign 4
=>
.byte 1, 2
.zero 2
;
nop
.align 2
=>
addi x0, x0, 0

;
la a0, x
.align 4
x:
=>
lui a0, %hi(x)
addi a0, a0, %lo(x)
.zero 8
x:
;
.data
.byte 1
.text
.align 2
.data
.align 1
=>
.shared
.byte 1
.code

.shared
.zero 1";

/// Constants: the name is a label too, so that no other line may have it.
const CONSTANTS: &str = "\
.equ N, 5
li a0, N
=>

N:
addi a0, x0, 5
;
li a0, N
.set N, 5000
=>
lui a0, 1
addi a0, a0, 904

N:
;
.equ N, 0x10
lw a0, N(sp)
=>

N:
lw a0, 16(sp)
;
.equ N, -4
x: sw a0,N(sp)
=>

N:
x: sw a0,-4(sp)
;
.equ N, 3
.word N, N, M
.byte N
.zero N
=>

N:
.word 3, 3, M
.byte 3
.zero 3";

/// What is wrong stays wrong.
const WRONG: &str = "\
mv a0
=>
addi a0, , 0
;
nop a0
=>
addi x0, x0, 0, a0
;
j x, y
=>
jal x0, x, y";

/// Texts that are rewritten.
static REWRITTEN: [&str; 10] = [
    MANUAL, AT_LABELS, ADDRESSES, FENCES, NUMBERS, DIRECTIVES, LABELS, ALIGNMENTS, CONSTANTS, WRONG,
];

#[test]
fn lines_have_their_plain_lines(rt: HostRuntime) -> Result<(), Fail> {
    for texts in REWRITTEN {
        for row in texts.split("\n;\n") {
            let (course, plain) = row.split_once("\n=>\n").ok_or("a row")?;
            let found = course_text(rt.alloc(), course.as_bytes())?;
            assert_eq!(rt; str::from_utf8(&found.text)?, plain, "{course:?}");
        }
    }
    Ok(())
}

/// Lines that the plain grammar reads, or that neither grammar has.
static UNCHANGED: [&str; 14] = [
    "",
    " # nothing",
    "x:",
    "  addi a0 , a1,-4   # four less",
    "lw\ta0,4( sp )",
    "sw a0, %lo(x)(t0)",
    "jal ra, x",
    "jalr ra, 4(t0)",
    "fence x0, x0, 255",
    ".word 1, x",
    ".local",
    "frob a0",
    ".section .frob",
    "lw a0, 4(q)",
];

#[test]
fn other_lines_stay(rt: HostRuntime) -> Result<(), Fail> {
    laws::plain_texts_stay();
    laws::li_leaves_the_number();
    for line in UNCHANGED {
        let found = course_text(rt.alloc(), line.as_bytes())?;
        assert_same!(rt; str::from_utf8(&found.text)?, line);
        assert_same!(rt; found.origins.as_slice(), [1].as_slice());
    }
    Ok(())
}

#[test]
fn plain_lines_name_their_course_line(rt: HostRuntime) -> Result<(), Fail> {
    let found = course_text(rt.alloc(), b"nop\nla a0, x\n\n.equ N, 1\nx:\n")?;
    assert_same!(rt; found.origins.as_slice(), [1, 2, 2, 3, 4, 4, 5, 6].as_slice());
    Ok(())
}

/// Texts that are refused, with what is reported.
static REFUSED: [(&str, &str); 16] = [
    ("nop\nmv a0\n", "ultra: A2 line 2\n"),
    ("li a0", "ultra: A2 line 1\n"),
    ("li a0, x", "ultra: A2 line 1\n"),
    ("li a0, 4294967296", "ultra: A3 line 1\n"),
    ("li a0, -2147483649", "ultra: A3 line 1\n"),
    ("la a0, x\nla a0, y\nx:", "ultra: A5 line 2\n"),
    (".equ N, 1\nN: ebreak", "ultra: A4 line 2\n"),
    ("N: ebreak\n.equ N, 1", "ultra: A4 line 2\n"),
    (".equ N, 1\nla a0, x\n.set N, 2", "ultra: A4 line 3\n"),
    (".equ N", "ultra: A2 line 1\n"),
    (".equ N, M", "ultra: A2 line 1\n"),
    (".equ 5, 6", "ultra: A2 line 1\n"),
    (".equ N, 4294967296", "ultra: A3 line 1\n"),
    (".align 17", "ultra: A3 line 1\n"),
    (".balign 6", "ultra: A3 line 1\n"),
    ("lui a0, %hi(N)\n.equ N, 1", "ultra: A2 line 1\n"),
];

/// The outcome of assembling a course text.
fn assembled(alloc: Global, text: &[u8]) -> Ran<Vec<u8>> {
    ran!(
        Vec::new(alloc),
        Vec::new(alloc),
        |out, err| course_asm_command(alloc, &mut Meter::new(text), out, err)
    )
}

/// The outcome of checking a course text.
fn checked(alloc: Global, text: &[u8]) -> Ran<Vec<u8>> {
    ran!(
        Vec::new(alloc),
        Vec::new(alloc),
        |out, err| course_check_command(alloc, &mut Meter::new(text), out, err)
    )
}

#[test]
fn faults_name_the_course_line(rt: HostRuntime) -> Result<(), Fail> {
    for (text, reported) in REFUSED {
        assembled(rt.alloc(), text.as_bytes()).comes_to(2, b"", reported)?;
    }
    assembled(rt.alloc(), b"frob \xFF").comes_to(3, b"", "ultra: link\n")
}

#[test]
fn course_texts_are_assembled(rt: HostRuntime) -> Result<(), Fail> {
    let alloc = rt.alloc();
    let plain = assemble(alloc, "lui a0, 1\naddi a0, a0, 904\njalr x0, 0(ra)\n")?;
    let image = plain.to_elf(alloc)?;
    assembled(alloc, b"li a0, 5000\nret\n").comes_to(0, &image, "")
}

/// A list for a course text: a rewritten line has its first word, and any other its word at fault. A line is listed
/// once, and advice names lines of the course text.
const LISTED: (&str, &str) = (
    "x: la a0, y\n  beqz a0\naddi a0, a0\nx: nop\n.equ N, 1\nN:\n",
    "\
line 1 column 4: A5 la: there is no such label
line 2 column 3: A2 beqz: a label or a number from -4096 to 4094 belongs here
line 3 column 12: A2: the operands are rd, rs1, i
line 4 column 4: A4 nop: line 1 has this label already
line 6 column 1: A4 N: line 5 has this label already
5 faults
",
);

#[test]
fn checks_list_course_lines(rt: HostRuntime) -> Result<(), Fail> {
    let (text, list) = LISTED;
    checked(rt.alloc(), text.as_bytes()).comes_to(1, list.as_bytes(), "")?;
    checked(rt.alloc(), b"li a0, 5\nret\n").comes_to(0, b"no faults\n", "")
}

#[test]
fn refuses_a_text_that_is_too_long(rt: HostRuntime) -> Result<(), Fail> {
    let alloc = rt.alloc();
    let asm = ran!(
        Vec::new(alloc),
        Vec::new(alloc),
        |out, err| course_asm_command(alloc, &mut Meter::new(Endless), out, err)
    );
    asm.comes_to(4, b"", "ultra: memory\n")
}
