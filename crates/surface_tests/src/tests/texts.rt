//! Lines and texts that are assembled, and instructions that are disassembled.

use arrayvec::ArrayString;
use asm_lines::{Instruction, LineError, LineFault, Statement, read_line};
use assembler::{AsmError, AsmFault, Program, assemble, disassemble};
use decode::{decode, encode};
use std::alloc::Global;
use std::test::Fail;
use test_support::{EBREAK, assert_same};

/// The word of a statement that is an instruction without a label in it.
fn word_of(statement: Option<&Statement>) -> Option<u32> {
    match statement {
        Some(Statement::Instruction(Instruction::Whole(insn))) => Some(encode(insn)),
        _ => None,
    }
}

#[test]
fn a_line_is_read(rt: HostRuntime) -> Result<(), Fail> {
    match read_line(rt.alloc(), b"loop: addi.x # none") {
        Ok(_) => return Err(Fail::from("no such instruction")),
        Err(error) => assert_same!(rt; error, LineError::Fault(LineFault::Unknown)),
    }
    match read_line(rt.alloc(), b"loop: add x1, x5, x27 # sum") {
        Ok(line) => {
            assert_same!(rt; word_of(line.statement.as_ref()), Some(0x01B2_80B3));
            assert!(rt; line.label == Some(b"loop".as_slice()));
            Ok(())
        }
        Err(_) => Err(Fail::from("a fault")),
    }
}

/// The image of a text.
fn elf_of(alloc: Global, text: &str) -> Result<Vec<u8>, AsmError> {
    let program: Program = assemble(alloc, text)?;
    program.to_elf(alloc)
}

#[test]
fn texts_are_assembled(rt: HostRuntime) -> Result<(), Fail> {
    assert_same!(rt; elf_of(rt.alloc(), "ebreak")?.as_slice(), EBREAK.as_slice());
    let refusal = AsmError {
        line: 1,
        fault: AsmFault::Range,
    };
    assert_same!(rt; elf_of(rt.alloc(), "addi x1, x0, 2048").err(), Some(refusal));
    Ok(())
}

/// A text replaces the one before it.
#[test]
fn instructions_are_disassembled(rt: HostRuntime) {
    let mut text = ArrayString::new();
    for (word, written) in [
        (0x0010_0093, "addi x1, x0, 1"),
        (0x00B6_252F, "amoadd.w x10, x11, (x12)"),
        (0x0020_00EF, "jal x1, 2"),
    ] {
        let insn = decode(word).expect(&rt, "an instruction");
        disassemble(&insn, &mut text);
        assert_same!(rt; text.as_str(), written);
    }
}
