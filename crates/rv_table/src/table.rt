//! The table of the 57 rows.

ghost use Rattle.std.specs.Prelude.{◌≡◌};
ghost use Rattle.rv_table.specs.Rows.{row, row_of, register_match, amo_match};
ghost use Rattle.rv_table.specs.declared.table.Format.TheVariants as format;

use crate::insn::Insn;
use crate::operation::{
    AmoOp, BranchOp, ImmediateOp, LoadOp, RegisterOp, ShiftOp, StoreOp, UpperOp,
};

/// Where a word has the operands of a row (manual, "Base Instruction Formats").
#[derive(Clone, Copy, Debug, PartialEq, Eq, Drop)]
pub enum Format {
    RType,
    IType,
    SType,
    BType,
    UType,
    JType,
    /// An I-type whose immediate is a shift amount of five bits.
    Shift,
    /// An I-type whose immediate is the ordering field of FENCE.
    Fence,
    /// No operand: ECALL and EBREAK.
    System,
    /// An R-type with the bits aq and rl.
    Atomic,
}

/// A row of the table. It fits a word `w` if `w & mask == match_`.
#[derive(Clone, Copy, Debug, PartialEq, Eq, Drop)]
pub struct Row {
    pub mask: u32,
    pub match_: u32,
    pub format: Format,
}

macro_rules! rows {
    ($($mask:literal $match_:literal $format:ident)*) => {
        [$(Row { mask: $mask, match_: $match_, format: Format::$format }),*]
    };
}

/// The 57 rows, in the order of the manual's listing, with those of extension "M" last.
pub static TABLE: [Row; 57] = rows![
    0x0000_007F 0x0000_0037 UType // LUI
    0x0000_007F 0x0000_0017 UType // AUIPC
    0x0000_007F 0x0000_006F JType // JAL
    0x0000_707F 0x0000_0067 IType // JALR
    0x0000_707F 0x0000_0063 BType // BEQ
    0x0000_707F 0x0000_1063 BType // BNE
    0x0000_707F 0x0000_4063 BType // BLT
    0x0000_707F 0x0000_5063 BType // BGE
    0x0000_707F 0x0000_6063 BType // BLTU
    0x0000_707F 0x0000_7063 BType // BGEU
    0x0000_707F 0x0000_0003 IType // LB
    0x0000_707F 0x0000_1003 IType // LH
    0x0000_707F 0x0000_2003 IType // LW
    0x0000_707F 0x0000_4003 IType // LBU
    0x0000_707F 0x0000_5003 IType // LHU
    0x0000_707F 0x0000_0023 SType // SB
    0x0000_707F 0x0000_1023 SType // SH
    0x0000_707F 0x0000_2023 SType // SW
    0x0000_707F 0x0000_0013 IType // ADDI
    0x0000_707F 0x0000_2013 IType // SLTI
    0x0000_707F 0x0000_3013 IType // SLTIU
    0x0000_707F 0x0000_4013 IType // XORI
    0x0000_707F 0x0000_6013 IType // ORI
    0x0000_707F 0x0000_7013 IType // ANDI
    0xFE00_707F 0x0000_1013 Shift // SLLI
    0xFE00_707F 0x0000_5013 Shift // SRLI
    0xFE00_707F 0x4000_5013 Shift // SRAI
    0xFE00_707F 0x0000_0033 RType // ADD
    0xFE00_707F 0x4000_0033 RType // SUB
    0xFE00_707F 0x0000_1033 RType // SLL
    0xFE00_707F 0x0000_2033 RType // SLT
    0xFE00_707F 0x0000_3033 RType // SLTU
    0xFE00_707F 0x0000_4033 RType // XOR
    0xFE00_707F 0x0000_5033 RType // SRL
    0xFE00_707F 0x4000_5033 RType // SRA
    0xFE00_707F 0x0000_6033 RType // OR
    0xFE00_707F 0x0000_7033 RType // AND
    0x0000_707F 0x0000_000F Fence // FENCE
    0xFFFF_FFFF 0x0000_0073 System // ECALL
    0xFFFF_FFFF 0x0010_0073 System // EBREAK
    0xF800_707F 0x0000_202F Atomic // AMOADD.W
    0xF800_707F 0x0800_202F Atomic // AMOSWAP.W
    0xF800_707F 0x2000_202F Atomic // AMOXOR.W
    0xF800_707F 0x4000_202F Atomic // AMOOR.W
    0xF800_707F 0x6000_202F Atomic // AMOAND.W
    0xF800_707F 0x8000_202F Atomic // AMOMIN.W
    0xF800_707F 0xA000_202F Atomic // AMOMAX.W
    0xF800_707F 0xC000_202F Atomic // AMOMINU.W
    0xF800_707F 0xE000_202F Atomic // AMOMAXU.W
    0xFE00_707F 0x0200_0033 RType // MUL
    0xFE00_707F 0x0200_1033 RType // MULH
    0xFE00_707F 0x0200_2033 RType // MULHSU
    0xFE00_707F 0x0200_3033 RType // MULHU
    0xFE00_707F 0x0200_4033 RType // DIV
    0xFE00_707F 0x0200_5033 RType // DIVU
    0xFE00_707F 0x0200_6033 RType // REM
    0xFE00_707F 0x0200_7033 RType // REMU
];

/// The row of an instruction.
pub fn row_of(insn: &Insn) -> &'static Row
    ensures { result.now ≡ row_of insn.now }
{
    match insn {
        Insn::Upper { op, .. } => match op {
            UpperOp::Lui => &TABLE[0],
            UpperOp::Auipc => &TABLE[1],
        },
        Insn::Jal { .. } => &TABLE[2],
        Insn::Jalr { .. } => &TABLE[3],
        Insn::Branch { op, .. } => match op {
            BranchOp::Beq => &TABLE[4],
            BranchOp::Bne => &TABLE[5],
            BranchOp::Blt => &TABLE[6],
            BranchOp::Bge => &TABLE[7],
            BranchOp::Bltu => &TABLE[8],
            BranchOp::Bgeu => &TABLE[9],
        },
        Insn::Load { op, .. } => match op {
            LoadOp::Lb => &TABLE[10],
            LoadOp::Lh => &TABLE[11],
            LoadOp::Lw => &TABLE[12],
            LoadOp::Lbu => &TABLE[13],
            LoadOp::Lhu => &TABLE[14],
        },
        Insn::Store { op, .. } => match op {
            StoreOp::Sb => &TABLE[15],
            StoreOp::Sh => &TABLE[16],
            StoreOp::Sw => &TABLE[17],
        },
        Insn::OpImm { op, .. } => match op {
            ImmediateOp::Addi => &TABLE[18],
            ImmediateOp::Slti => &TABLE[19],
            ImmediateOp::Sltiu => &TABLE[20],
            ImmediateOp::Xori => &TABLE[21],
            ImmediateOp::Ori => &TABLE[22],
            ImmediateOp::Andi => &TABLE[23],
        },
        Insn::Shift { op, .. } => match op {
            ShiftOp::Slli => &TABLE[24],
            ShiftOp::Srli => &TABLE[25],
            ShiftOp::Srai => &TABLE[26],
        },
        Insn::Op { op, .. } => register_row(*op),
        Insn::Fence { .. } => &TABLE[37],
        Insn::Ecall => &TABLE[38],
        Insn::Ebreak => &TABLE[39],
        Insn::Amo { op, .. } => amo_row(*op),
    }
}

fn register_row(op: RegisterOp) -> &'static Row
    ensures { result.now ≡ row 0xFE00707F (register_match op) format.RType }
{
    match op {
        RegisterOp::Add => &TABLE[27],
        RegisterOp::Sub => &TABLE[28],
        RegisterOp::Sll => &TABLE[29],
        RegisterOp::Slt => &TABLE[30],
        RegisterOp::Sltu => &TABLE[31],
        RegisterOp::Xor => &TABLE[32],
        RegisterOp::Srl => &TABLE[33],
        RegisterOp::Sra => &TABLE[34],
        RegisterOp::Or => &TABLE[35],
        RegisterOp::And => &TABLE[36],
        RegisterOp::Mul => &TABLE[49],
        RegisterOp::Mulh => &TABLE[50],
        RegisterOp::Mulhsu => &TABLE[51],
        RegisterOp::Mulhu => &TABLE[52],
        RegisterOp::Div => &TABLE[53],
        RegisterOp::Divu => &TABLE[54],
        RegisterOp::Rem => &TABLE[55],
        RegisterOp::Remu => &TABLE[56],
    }
}

fn amo_row(op: AmoOp) -> &'static Row
    ensures { result.now ≡ row 0xF800707F (amo_match op) format.Atomic }
{
    match op {
        AmoOp::Add => &TABLE[40],
        AmoOp::Swap => &TABLE[41],
        AmoOp::Xor => &TABLE[42],
        AmoOp::Or => &TABLE[43],
        AmoOp::And => &TABLE[44],
        AmoOp::Min => &TABLE[45],
        AmoOp::Max => &TABLE[46],
        AmoOp::Minu => &TABLE[47],
        AmoOp::Maxu => &TABLE[48],
    }
}
