//! Instructions, by the shape of their operands.

use crate::operand::{Immediate, Register};
use crate::operation::{
    AmoOp, BranchOp, ImmediateOp, LoadOp, RegisterOp, ShiftOp, StoreOp, UpperOp,
};

/// An instruction with its operands. Each value has exactly one word that spells it.
#[derive(Clone, Copy, Debug, PartialEq, Eq, Drop)]
pub enum Insn {
    /// Register with register, as `add rd, rs1, rs2`.
    Op {
        op: RegisterOp,
        rd: Register,
        rs1: Register,
        rs2: Register,
    },
    /// Register with immediate, as `addi rd, rs1, imm`.
    OpImm {
        op: ImmediateOp,
        rd: Register,
        rs1: Register,
        imm: Immediate<12>,
    },
    /// Shift by a constant amount, as `slli rd, rs1, amount`.
    Shift {
        op: ShiftOp,
        rd: Register,
        rs1: Register,
        amount: Immediate<5>,
    },
    /// Load from memory, as `lw rd, imm(rs1)`.
    Load {
        op: LoadOp,
        rd: Register,
        rs1: Register,
        imm: Immediate<12>,
    },
    /// Store to memory, as `sw rs2, imm(rs1)`.
    Store {
        op: StoreOp,
        rs1: Register,
        rs2: Register,
        imm: Immediate<12>,
    },
    /// Conditional branch, as `beq rs1, rs2, target`. The offset is in units of two bytes.
    Branch {
        op: BranchOp,
        rs1: Register,
        rs2: Register,
        offset: Immediate<12>,
    },
    /// `lui rd, upper` or `auipc rd, upper`: `upper` is the upper 20 bits.
    Upper {
        op: UpperOp,
        rd: Register,
        upper: Immediate<20>,
    },
    /// Jump and link, `jal rd, target`. The offset is in units of two bytes.
    Jal {
        rd: Register,
        offset: Immediate<20>,
    },
    /// Jump and link to a register, `jalr rd, imm(rs1)`.
    Jalr {
        rd: Register,
        rs1: Register,
        imm: Immediate<12>,
    },
    /// `fence`: `ordering` is bits 31 to 20 (fm and the predecessor and successor sets).
    Fence {
        rd: Register,
        rs1: Register,
        ordering: Immediate<12>,
    },
    /// Environment call.
    Ecall,
    /// Breakpoint.
    Ebreak,
    /// Atomic memory operation, as `amoadd.w rd, rs2, (rs1)`, with its acquire and release bits.
    Amo {
        op: AmoOp,
        rd: Register,
        rs1: Register,
        rs2: Register,
        aq: bool,
        rl: bool,
    },
}
