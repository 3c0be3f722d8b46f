//! Lines of the assembly language, and the fault of each.

use asm_lines::{Instruction, LineError, LineFault, Statement, low_bits, read_line, x_name};
use rv_table::{Insn, Register, RegisterOp};
use std::alloc::AllocGlobal;
use std::process::Abort;
use std::test::Fail;
use test_support::assert_same;

/// Checks that each of these lines has this fault, or none.
fn check(rt: &(impl Abort + AllocGlobal), lines: &[&str], fault: Option<LineError>) {
    for line in lines {
        let found = read_line(rt.alloc(), line.as_bytes()).err();
        assert_same!(rt; found, fault, line);
    }
}

#[test]
fn a_line_is_a_label_and_a_statement(rt: HostRuntime) -> Result<(), Fail> {
    let add = Insn::Op {
        op: RegisterOp::Add,
        rd: Register::new(1),
        rs1: Register::new(5),
        rs2: Register::new(27),
    };
    match read_line(rt.alloc(), b" \tloop :\tadd  x1 ,t0,\ts11 # sum") {
        Ok(line) => {
            let Some(Statement::Instruction(Instruction::Whole(insn))) = &line.statement else {
                return Err(Fail::from("no instruction"));
            };
            assert_same!(rt; *insn, add);
            assert!(rt; line.label == Some(b"loop".as_slice()));
        }
        Err(_) => return Err(Fail::from("a fault")),
    }
    Ok(())
}

#[test]
fn faults_are_told_apart(rt: HostRuntime) {
    check(&rt, &UNKNOWN, Some(LineError::Fault(LineFault::Unknown)));
    check(&rt, &MISSHAPEN, Some(LineError::Fault(LineFault::Form)));
    check(&rt, &OUT_OF_RANGE, Some(LineError::Fault(LineFault::Range)));
    check(&rt, &SOUND, None);
}

/// Lines whose first word is unknown.
static UNKNOWN: [&str; 9] = [
    "foo",
    "1a: ecall",
    "a: b: ecall",
    "addi.aq x1, x0, 1",
    "div.rl x1, x2, x3",
    "divw x1, x2, x3",
    "amoadd.w.rlaq x1, x2, (x3)",
    "ADDI x1, x0, 1",
    "ecall\r",
];

/// Lines that are wrong in another way.
static MISSHAPEN: [&str; 15] = [
    "ecall x0",
    "addi x1, x0",
    "addi x1, x0, 1\r",
    "addi x1, x32, 1",
    "addi x1, x0, label",
    "addi x1, x0, +1",
    "addi x1, x0, - 1",
    "addi x1, x0, 1+1",
    "addi x1, x0, -0x1",
    "addi x1, x0, 0x",
    "addi x1, x0, 0X1",
    ".word",
    ".byte 1,",
    ".byte label",
    ".code 1",
];

/// Lines with a number out of its range.
static OUT_OF_RANGE: [&str; 4] = [
    "addi x1, x0, 2048",
    "addi x1, x0, 99999999999999999999999999",
    ".zero 1048577",
    ".byte -129",
];

static SOUND: [&str; 11] = [
    "",
    " \t # nothing",
    "a:",
    ".local",
    ".byte -128, 255,0xfF",
    ".word 4294967295 , -2147483648, a",
    "lw x6 , %lo ( v ) ( x5 )",
    "amoadd.w.aqrl a0, a1, ( a2 )",
    "mulhsu a0, a1, a2",
    "addi : ecall",
    "x1: addi x1, x0, 00000000000000000000000000000012",
];

#[test]
fn the_words_of_the_language(rt: HostRuntime) {
    assert_same!(rt; low_bits(4096, -1), 4095);
    assert_same!(rt; x_name(Register::new(31)), "x31");
}
