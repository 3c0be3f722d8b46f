//! The operations of each shape of instruction, under the manual's mnemonics.

/// Register-register operations (manual, "Integer Register-Register Operations", and from `Mul` on
/// "Multiplication Operations" and "Division Operations").
#[derive(Clone, Copy, Debug, PartialEq, Eq, Drop)]
pub enum RegisterOp {
    Add,
    Sub,
    Sll,
    Slt,
    Sltu,
    Xor,
    Srl,
    Sra,
    Or,
    And,
    Mul,
    Mulh,
    Mulhsu,
    Mulhu,
    Div,
    Divu,
    Rem,
    Remu,
}

/// Register-immediate operations (manual, "Integer Register-Immediate Instructions").
#[derive(Clone, Copy, Debug, PartialEq, Eq, Drop)]
pub enum ImmediateOp {
    Addi,
    Slti,
    Sltiu,
    Xori,
    Ori,
    Andi,
}

/// Shifts by a constant (manual, "Integer Register-Immediate Instructions").
#[derive(Clone, Copy, Debug, PartialEq, Eq, Drop)]
pub enum ShiftOp {
    Slli,
    Srli,
    Srai,
}

/// Loads (manual, "Load and Store Instructions").
#[derive(Clone, Copy, Debug, PartialEq, Eq, Drop)]
pub enum LoadOp {
    Lb,
    Lh,
    Lw,
    Lbu,
    Lhu,
}

/// Stores (manual, "Load and Store Instructions").
#[derive(Clone, Copy, Debug, PartialEq, Eq, Drop)]
pub enum StoreOp {
    Sb,
    Sh,
    Sw,
}

/// Conditional branches (manual, "Conditional Branches").
#[derive(Clone, Copy, Debug, PartialEq, Eq, Drop)]
pub enum BranchOp {
    Beq,
    Bne,
    Blt,
    Bge,
    Bltu,
    Bgeu,
}

/// The two instructions with an upper immediate (manual, "Integer Register-Immediate
/// Instructions").
#[derive(Clone, Copy, Debug, PartialEq, Eq, Drop)]
pub enum UpperOp {
    Lui,
    Auipc,
}

/// Atomic memory operations on words (manual, "Atomic Memory Operations").
#[derive(Clone, Copy, Debug, PartialEq, Eq, Drop)]
pub enum AmoOp {
    Add,
    Swap,
    Xor,
    Or,
    And,
    Min,
    Max,
    Minu,
    Maxu,
}
