//! From an instruction to the word that spells it.

ghost use Rattle.std.specs.Prelude.{◌≡◌, ℕ, ◌^◌, ◌<◌};
ghost use Rattle.rv_table.specs.Rows.{InRange, Spells};
ghost use Rattle.decode.specs.Words.{word_of, operands_of, r_operands, i_operands, s_operands, b_operands, j_operands};

use crate::fields::field;
use rv_table::{Immediate, Insn, Register, row_of};

/// The one word that spells the instruction.
pub fn encode(insn: &Insn) -> u32
    ensures value { result ≡ word_of insn.now }
    ensures spells { Spells result insn.now }
    ensures only { (word : ℕ) → word < 2 ^ 32 → Spells word insn.now → word ≡ result }
    ensures in_range { InRange insn.now }
{
    row_of(insn).match_ + operands(insn)
}

/// The operands of the instruction, each in its place in the word.
fn operands(insn: &Insn) -> u32
    ensures value { result ≡ operands_of insn.now }
    ensures in_range { InRange insn.now }
{
    match *insn {
        Insn::Op { rd, rs1, rs2, .. } => r_operands(rd, rs1, rs2),
        Insn::OpImm { rd, rs1, imm, .. }
        | Insn::Load { rd, rs1, imm, .. }
        | Insn::Jalr { rd, rs1, imm }
        | Insn::Fence {
            rd,
            rs1,
            ordering: imm,
        } => i_operands(rd, rs1, imm),
        Insn::Shift {
            rd,
            rs1,
            amount,
            ..
        } => (number(rd) << 7) + (number(rs1) << 15) + (amount.field() << 20),
        Insn::Store { rs1, rs2, imm, .. } => s_operands(rs1, rs2, imm),
        Insn::Branch {
            rs1,
            rs2,
            offset,
            ..
        } => b_operands(rs1, rs2, offset),
        Insn::Upper { rd, upper, .. } => (number(rd) << 7) + (upper.field() << 12),
        Insn::Jal { rd, offset } => j_operands(rd, offset),
        Insn::Ecall | Insn::Ebreak => 0,
        Insn::Amo {
            rd,
            rs1,
            rs2,
            aq,
            rl,
            ..
        } => r_operands(rd, rs1, rs2) + (u32::from(aq) << 26) + (u32::from(rl) << 25),
    }
}

fn number(register: Register) -> u32
    ensures value { result ≡ register }
    ensures in_range { register < 2 ^ 5 }
{
    u32::from(register.number())
}

fn r_operands(rd: Register, rs1: Register, rs2: Register) -> u32
    ensures value { result ≡ r_operands rd rs1 rs2 }
    ensures in_range { (rd < 2 ^ 5) × (rs1 < 2 ^ 5) × (rs2 < 2 ^ 5) }
{
    (number(rd) << 7) + (number(rs1) << 15) + (number(rs2) << 20)
}

fn i_operands(rd: Register, rs1: Register, imm: Immediate<12>) -> u32
    ensures value { result ≡ i_operands rd rs1 imm }
    ensures in_range { (rd < 2 ^ 5) × (rs1 < 2 ^ 5) × (imm < 2 ^ 12) }
{
    (number(rd) << 7) + (number(rs1) << 15) + (imm.field() << 20)
}

fn s_operands(rs1: Register, rs2: Register, imm: Immediate<12>) -> u32
    ensures value { result ≡ s_operands rs1 rs2 imm }
    ensures in_range { (rs1 < 2 ^ 5) × (rs2 < 2 ^ 5) × (imm < 2 ^ 12) }
{
    let imm = imm.field();
    (field(imm, 4, 0) << 7) + (number(rs1) << 15) + (number(rs2) << 20) + (field(imm, 11, 5) << 25)
}

fn b_operands(rs1: Register, rs2: Register, offset: Immediate<12>) -> u32
    ensures value { result ≡ b_operands rs1 rs2 offset }
    ensures in_range { (rs1 < 2 ^ 5) × (rs2 < 2 ^ 5) × (offset < 2 ^ 12) }
{
    let offset = offset.field();
    (field(offset, 10, 10) << 7)
        + (field(offset, 3, 0) << 8)
        + (number(rs1) << 15)
        + (number(rs2) << 20)
        + (field(offset, 9, 4) << 25)
        + (field(offset, 11, 11) << 31)
}

fn j_operands(rd: Register, offset: Immediate<20>) -> u32
    ensures value { result ≡ j_operands rd offset }
    ensures in_range { (rd < 2 ^ 5) × (offset < 2 ^ 20) }
{
    let offset = offset.field();
    (number(rd) << 7)
        + (field(offset, 18, 11) << 12)
        + (field(offset, 10, 10) << 20)
        + (field(offset, 9, 0) << 21)
        + (field(offset, 19, 19) << 31)
}
