//! Texts that are refused, with the code and the line of the fault.

use super::compare_each;
use assembler::{AsmError, AsmFault};
use test_support::assert_same;

#[test]
fn faults_name_their_line(rt: HostRuntime) {
    compare_each(&rt, &FAULTS);
}

static FAULTS: [(&str, &str); 43] = [
    ("foo", "A1 line 1"),
    ("1a: ecall", "A1 line 1"),
    ("a: b: ecall", "A1 line 1"),
    ("\n\n  ADD x1, x1, x1", "A1 line 3"),
    ("add.aq x1, x1, x1", "A1 line 1"),
    ("addi x1, x0", "A2 line 1"),
    ("ecall\naddi x1, x0, 1\r\n", "A2 line 2"),
    ("addi x1, y0, 1", "A2 line 1"),
    ("lw x1, (x2)", "A2 line 1"),
    ("lw x1, 4(x2", "A2 line 1"),
    ("amoadd.w x1, x2, 0(x3)", "A2 line 1"),
    ("lui x1, %lo(a)\na:", "A2 line 1"),
    ("addi x1, x0, %hi(a)\na:", "A2 line 1"),
    ("slli x1, x0, %lo(a)\na:", "A2 line 1"),
    ("lui x1, a\na:", "A2 line 1"),
    ("addi x1, x0, +1", "A2 line 1"),
    ("addi x1, x0, - 1", "A2 line 1"),
    ("addi x1, x0, 1+1", "A2 line 1"),
    ("addi x1, x0, -0x1", "A2 line 1"),
    ("addi x1, x0, 0XF", "A2 line 1"),
    ("addi x1, x0, f", "A2 line 1"),
    (".byte a\na:", "A2 line 1"),
    (".zero a\na:", "A2 line 1"),
    (".zero", "A2 line 1"),
    (".word", "A2 line 1"),
    (".word 1,,2", "A2 line 1"),
    (".code 1", "A2 line 1"),
    (".local\necall", "A2 line 2"),
    (".shared\n.zero 4\nadd x1, x1, x1", "A2 line 3"),
    ("addi x1, x0, 2048", "A3 line 1"),
    (".byte 1\necall", "A3 line 2"),
    (".byte 1\n.word 1", "A3 line 2"),
    (".shared\n.byte 1, 2\n.word 1", "A3 line 3"),
    ("a: ecall\na: ecall", "A4 line 2"),
    ("a:\n.shared\n\na:", "A4 line 4"),
    ("beq x0, x0, nowhere", "A5 line 1"),
    ("ecall\n.word there", "A5 line 2"),
    ("here: lui x1, %hi(Here)", "A5 line 1"),
    (".zero 65537", "A6 line 1"),
    (".zero 65536\necall", "A6 line 2"),
    (".local\n.zero 65536\n.byte 1", "A6 line 3"),
    (".shared\n.zero 786429\n.byte 1,2,3,4", "A6 line 3"),
    (".shared\n.zero 786432\n\n.word 1", "A6 line 4"),
];

/// Each fault, and its text.
static CODES: [(AsmFault, &str); 7] = [
    (AsmFault::UnknownWord, "A1 line 7"),
    (AsmFault::Form, "A2 line 7"),
    (AsmFault::Range, "A3 line 7"),
    (AsmFault::LabelTwice, "A4 line 7"),
    (AsmFault::LabelMissing, "A5 line 7"),
    (AsmFault::SectionFull, "A6 line 7"),
    (AsmFault::Memory, "A7 line 7"),
];

#[test]
fn refusals_are_written_as_codes(rt: HostRuntime) {
    for (fault, written) in &CODES {
        let error = AsmError {
            line: 7,
            fault: *fault,
        };
        let text = format!(in rt.alloc(); "{error}").expect(&rt, "memory");
        assert_same!(rt; text.as_str(), *written);
    }
}
