//! What a line of text says, borrowed from the text.

use rv_table::{BranchOp, ImmediateOp, Insn, LoadOp, Register, StoreOp, UpperOp};

/// The parts of a program.
#[derive(Clone, Copy, Debug, PartialEq, Eq, Drop)]
pub enum Section {
    /// Instructions, and data that only loads can reach.
    Code,
    /// The first bytes of each processor's local memory.
    Local,
    /// The first bytes of the shared words.
    Shared,
}

/// A number or a label. Its place decides what a label means: in `.word` its value, in a target its distance from the
/// instruction, in an upper immediate `%hi(label)`, in an I- or S-immediate `%lo(label)`.
#[derive(Clone, Copy, Debug, PartialEq, Eq, Drop)]
pub enum Value<'a> {
    Number(i64),
    Label(&'a [u8]),
}

/// An instruction. Its immediate may be a label.
#[derive(Clone, Copy, Debug, PartialEq, Eq, Drop)]
pub enum Instruction<'a> {
    /// An instruction without such an immediate.
    Whole(Insn),
    /// As `addi rd, rs1, imm`.
    OpImm {
        op: ImmediateOp,
        rd: Register,
        rs1: Register,
        imm: Value<'a>,
    },
    /// As `lw rd, imm(rs1)`.
    Load {
        op: LoadOp,
        rd: Register,
        rs1: Register,
        imm: Value<'a>,
    },
    /// As `sw rs2, imm(rs1)`.
    Store {
        op: StoreOp,
        rs1: Register,
        rs2: Register,
        imm: Value<'a>,
    },
    /// As `beq rs1, rs2, target`.
    Branch {
        op: BranchOp,
        rs1: Register,
        rs2: Register,
        target: Value<'a>,
    },
    /// As `lui rd, upper`.
    Upper {
        op: UpperOp,
        rd: Register,
        upper: Value<'a>,
    },
    /// `jal rd, target`.
    Jal {
        rd: Register,
        target: Value<'a>,
    },
    /// `jalr rd, imm(rs1)`.
    Jalr {
        rd: Register,
        rs1: Register,
        imm: Value<'a>,
    },
}

/// What a line has besides its label.
#[derive(Debug, Drop)]
pub enum Statement<'a> {
    /// The section of the lines that follow.
    Section(Section),
    /// `.word`: numbers from -2^31 to 2^32 - 1, and labels.
    Words(Vec<Value<'a>>),
    /// `.byte`.
    Bytes(Vec<u8>),
    /// `.zero`: a number of bytes, at most 1,048,576.
    Zeros(u32),
    /// An instruction.
    Instruction(Instruction<'a>),
}

/// The label and the statement of a line, if it has them.
#[derive(Debug, Drop)]
pub struct Line<'a> {
    pub label: Option<&'a [u8]>,
    pub statement: Option<Statement<'a>>,
}
