//! From a word to the instruction that it spells.
//!
//! The opcode selects the shape; the bits under the shape's mask select the operation.

ghost use Rattle.std.specs.Prelude.{◌≡◌, ◌↔◌, Some, bit_and};
ghost use Rattle.rv_table.specs.declared.insn.Insn.{Insn};
ghost use Rattle.rv_table.specs.Rows.{Spells, insn_of, upper_match};
ghost use Rattle.decode.specs.Words.{IsReading};

use crate::fields::{
    b_immediate, flag, i_immediate, j_immediate, rd, rs1, rs2, s_immediate, shift_amount,
    u_immediate,
};
use crate::operations::{
    amo_op, branch_op, immediate_op, load_op, register_op, shift_op, store_op,
};
use rv_table::{Insn, UpperOp, laws};

// The masks of the table's rows. They select the opcode, and with it funct3, funct5 or funct7.
const OPCODE: u32 = 0x0000_007F;

const FUNCT3: u32 = 0x0000_707F;

const FUNCT5: u32 = 0xF800_707F;

const FUNCT7: u32 = 0xFE00_707F;

// The opcodes, under the names of the manual's "Opcode Map".
const LOAD: u32 = 0x03;

const MISC_MEM: u32 = 0x0F;

const OP_IMM: u32 = 0x13;

const AUIPC: u32 = 0x17;

const STORE: u32 = 0x23;

const AMO: u32 = 0x2F;

const OP: u32 = 0x33;

const LUI: u32 = 0x37;

const BRANCH: u32 = 0x63;

const JALR: u32 = 0x67;

const JAL: u32 = 0x6F;

const SYSTEM: u32 = 0x73;

/// The instruction that the word spells, or `None` if it spells none.
pub fn decode(word: u32) -> Option<Insn>
    ensures value { result ≡ insn_of word }
    ensures exact { (i : Insn) → (result ≡ Some i) ↔ Spells word i }
{
    // The proof alone needs this law of the table.
    laws::spelled_is_read();
    decode_by_opcode(word)
}

fn decode_by_opcode(word: u32) -> Option<Insn>
    ensures { IsReading word result }
{
    match word & OPCODE {
        OP => decode_op(word),
        OP_IMM => decode_op_imm(word),
        LOAD => decode_load(word),
        STORE => decode_store(word),
        BRANCH => decode_branch(word),
        LUI => Some(decode_upper(word, UpperOp::Lui)),
        AUIPC => Some(decode_upper(word, UpperOp::Auipc)),
        JAL => Some(decode_jal(word)),
        JALR => decode_jalr(word),
        MISC_MEM => decode_fence(word),
        SYSTEM => decode_system(word),
        AMO => decode_amo(word),
        _ => None,
    }
}

fn decode_op(word: u32) -> Option<Insn>
    requires { bit_and word OPCODE ≡ OP }
    ensures { IsReading word result }
{
    Some(Insn::Op {
        op: register_op(word & FUNCT7)?,
        rd: rd(word),
        rs1: rs1(word),
        rs2: rs2(word),
    })
}

fn decode_op_imm(word: u32) -> Option<Insn>
    requires { bit_and word OPCODE ≡ OP_IMM }
    ensures { IsReading word result }
{
    let rd = rd(word);
    let rs1 = rs1(word);
    Some(match immediate_op(word & FUNCT3) {
        Some(op) => Insn::OpImm {
            op,
            rd,
            rs1,
            imm: i_immediate(word),
        },
        None => Insn::Shift {
            op: shift_op(word & FUNCT7)?,
            rd,
            rs1,
            amount: shift_amount(word),
        },
    })
}

fn decode_load(word: u32) -> Option<Insn>
    requires { bit_and word OPCODE ≡ LOAD }
    ensures { IsReading word result }
{
    Some(Insn::Load {
        op: load_op(word & FUNCT3)?,
        rd: rd(word),
        rs1: rs1(word),
        imm: i_immediate(word),
    })
}

fn decode_store(word: u32) -> Option<Insn>
    requires { bit_and word OPCODE ≡ STORE }
    ensures { IsReading word result }
{
    Some(Insn::Store {
        op: store_op(word & FUNCT3)?,
        rs1: rs1(word),
        rs2: rs2(word),
        imm: s_immediate(word),
    })
}

fn decode_branch(word: u32) -> Option<Insn>
    requires { bit_and word OPCODE ≡ BRANCH }
    ensures { IsReading word result }
{
    Some(Insn::Branch {
        op: branch_op(word & FUNCT3)?,
        rs1: rs1(word),
        rs2: rs2(word),
        offset: b_immediate(word),
    })
}

fn decode_upper(word: u32, op: UpperOp) -> Insn
    requires { bit_and word OPCODE ≡ upper_match op }
    ensures { Spells word result }
{
    Insn::Upper {
        op,
        rd: rd(word),
        upper: u_immediate(word),
    }
}

fn decode_jal(word: u32) -> Insn
    requires { bit_and word OPCODE ≡ JAL }
    ensures { Spells word result }
{
    Insn::Jal {
        rd: rd(word),
        offset: j_immediate(word),
    }
}

fn decode_jalr(word: u32) -> Option<Insn>
    requires { bit_and word OPCODE ≡ JALR }
    ensures { IsReading word result }
{
    match word & FUNCT3 {
        JALR => Some(Insn::Jalr {
            rd: rd(word),
            rs1: rs1(word),
            imm: i_immediate(word),
        }),
        _ => None,
    }
}

fn decode_fence(word: u32) -> Option<Insn>
    requires { bit_and word OPCODE ≡ MISC_MEM }
    ensures { IsReading word result }
{
    match word & FUNCT3 {
        MISC_MEM => Some(Insn::Fence {
            rd: rd(word),
            rs1: rs1(word),
            ordering: i_immediate(word),
        }),
        _ => None,
    }
}

fn decode_system(word: u32) -> Option<Insn>
    requires { bit_and word OPCODE ≡ SYSTEM }
    ensures { IsReading word result }
{
    match word {
        0x0000_0073 => Some(Insn::Ecall),
        0x0010_0073 => Some(Insn::Ebreak),
        _ => None,
    }
}

fn decode_amo(word: u32) -> Option<Insn>
    requires { bit_and word OPCODE ≡ AMO }
    ensures { IsReading word result }
{
    Some(Insn::Amo {
        op: amo_op(word & FUNCT5)?,
        rd: rd(word),
        rs1: rs1(word),
        rs2: rs2(word),
        aq: flag(word, 26),
        rl: flag(word, 25),
    })
}
