//! Instructions, read from their operands.

ghost use Rattle.std.specs.Prelude.{◌≡◌, map};
ghost use Rattle.asm_lines.specs.Steps.{GivesFault};
ghost use Rattle.asm_lines.specs.Statements.{instr_of, val_of, op_in, op_imm_in, shift_in, addressed, addressed_in};
ghost use Rattle.asm_lines.specs.Statements.{branch_in, upper_insn_in, jal_in, fence_in, bare, amo_in};
ghost use Rattle.asm_lines.specs.Statements.{instruction_in};

use crate::fault::LineFault;
use crate::mnemonic::{Mnemonic, Order};
use crate::number::natural_within;
use crate::operand::{
    base_in, bracket_parts, lower_in, nothing_in, register_in, upper_in, value_in,
};
use crate::statement::{Instruction, Value};
use rv_table::{
    AmoOp, BranchOp, Immediate, ImmediateOp, Insn, LoadOp, Register, RegisterOp, ShiftOp, StoreOp,
    UpperOp,
};

/// The instruction with this mnemonic, this ordering and these operands.
///
/// # Errors
///
/// [`LineFault::Form`] if these are not operands of it, [`LineFault::Range`] if a number among them
/// is out of range.
pub fn instruction_in<'a>(
    mnemonic: Mnemonic,
    order: Order,
    operands: &[&'a [u8]],
) -> Result<Instruction<'a>, LineFault>
    ensures { GivesFault instr_of result (instruction_in mnemonic order (map (λ operand. operand.now) operands.now)) }
{
    match mnemonic {
        Mnemonic::Op(op) => op_in(op, operands),
        Mnemonic::OpImm(op) => op_imm_in(op, operands),
        Mnemonic::Shift(op) => shift_in(op, operands),
        Mnemonic::Load(op) => addressed_in(Addressed::Load(op), operands),
        Mnemonic::Store(op) => addressed_in(Addressed::Store(op), operands),
        Mnemonic::Branch(op) => branch_in(op, operands),
        Mnemonic::Upper(op) => upper_insn_in(op, operands),
        Mnemonic::Jal => jal_in(operands),
        Mnemonic::Jalr => addressed_in(Addressed::Jalr, operands),
        Mnemonic::Fence => fence_in(operands),
        Mnemonic::Ecall => bare(Insn::Ecall, operands),
        Mnemonic::Ebreak => bare(Insn::Ebreak, operands),
        Mnemonic::Amo(op) => amo_in(op, order, operands),
    }
}

/// `op rd, rs1, rs2`
#[tactic(auto, unfolding(crate::specs::Statements::op_in))]
fn op_in<'a>(op: RegisterOp, operands: &[&'a [u8]]) -> Result<Instruction<'a>, LineFault>
    ensures { GivesFault instr_of result (op_in op (map (λ operand. operand.now) operands.now)) }
{
    let [a, b, c] = operands else {
        return Err(LineFault::Form);
    };
    let rd = register_in(a)?;
    let rs1 = register_in(b)?;
    let rs2 = register_in(c)?;
    Ok(Instruction::Whole(Insn::Op { op, rd, rs1, rs2 }))
}

/// `op rd, rs1, i`
#[tactic(auto, unfolding(crate::specs::Statements::op_imm_in))]
fn op_imm_in<'a>(op: ImmediateOp, operands: &[&'a [u8]]) -> Result<Instruction<'a>, LineFault>
    ensures { GivesFault instr_of result (op_imm_in op (map (λ operand. operand.now) operands.now)) }
{
    let [a, b, c] = operands else {
        return Err(LineFault::Form);
    };
    let rd = register_in(a)?;
    let rs1 = register_in(b)?;
    let imm = lower_in(c)?;
    Ok(Instruction::OpImm { op, rd, rs1, imm })
}

/// `op rd, rs1, i`
#[tactic(auto, unfolding(crate::specs::Statements::shift_in))]
fn shift_in<'a>(op: ShiftOp, operands: &[&'a [u8]]) -> Result<Instruction<'a>, LineFault>
    ensures { GivesFault instr_of result (shift_in op (map (λ operand. operand.now) operands.now)) }
{
    let [a, b, c] = operands else {
        return Err(LineFault::Form);
    };
    let rd = register_in(a)?;
    let rs1 = register_in(b)?;
    let amount = Immediate::new(natural_within(31, c)?);
    Ok(Instruction::Whole(Insn::Shift {
        op,
        rd,
        rs1,
        amount,
    }))
}

/// The instructions with a register followed by an address, `i(rs1)`.
#[derive(Clone, Copy, Debug, PartialEq, Eq, Drop)]
enum Addressed {
    Load(LoadOp),
    Store(StoreOp),
    Jalr,
}

impl Addressed {
    /// The instruction with this register, and with `rs1` and `imm` as its address.
    fn instruction<'a>(self, register: Register, rs1: Register, imm: Value<'a>) -> Instruction<'a>
        ensures { instr_of result ≡ addressed self register rs1 (val_of imm.entry) }
    {
        match self {
            Addressed::Load(op) => Instruction::Load {
                op,
                rd: register,
                rs1,
                imm,
            },
            Addressed::Store(op) => Instruction::Store {
                op,
                rs1,
                rs2: register,
                imm,
            },
            Addressed::Jalr => Instruction::Jalr {
                rd: register,
                rs1,
                imm,
            },
        }
    }
}

/// `op rd, i(rs1)`, `op rs2, i(rs1)`, and `jalr rd, i(rs1)`
#[tactic(auto, unfolding(crate::specs::Statements::addressed_in))]
fn addressed_in<'a>(kind: Addressed, operands: &[&'a [u8]]) -> Result<Instruction<'a>, LineFault>
    ensures { GivesFault instr_of result (addressed_in kind (map (λ operand. operand.now) operands.now)) }
{
    let [a, b] = operands else {
        return Err(LineFault::Form);
    };
    let register = register_in(a)?;
    let (front, inside) = bracket_parts(b).ok_or(LineFault::Form)?;
    let imm = lower_in(front)?;
    let rs1 = register_in(inside)?;
    Ok(kind.instruction(register, rs1, imm))
}

/// `op rs1, rs2, target`
#[tactic(auto, unfolding(crate::specs::Statements::branch_in))]
fn branch_in<'a>(op: BranchOp, operands: &[&'a [u8]]) -> Result<Instruction<'a>, LineFault>
    ensures { GivesFault instr_of result (branch_in op (map (λ operand. operand.now) operands.now)) }
{
    let [a, b, c] = operands else {
        return Err(LineFault::Form);
    };
    let rs1 = register_in(a)?;
    let rs2 = register_in(b)?;
    let target = value_in(-4096, 4094, c)?;
    Ok(Instruction::Branch {
        op,
        rs1,
        rs2,
        target,
    })
}

/// `op rd, v`
#[tactic(auto, unfolding(crate::specs::Statements::upper_insn_in))]
fn upper_insn_in<'a>(op: UpperOp, operands: &[&'a [u8]]) -> Result<Instruction<'a>, LineFault>
    ensures { GivesFault instr_of result (upper_insn_in op (map (λ operand. operand.now) operands.now)) }
{
    let [a, b] = operands else {
        return Err(LineFault::Form);
    };
    let rd = register_in(a)?;
    let upper = upper_in(b)?;
    Ok(Instruction::Upper { op, rd, upper })
}

/// `jal rd, target`
#[tactic(auto, unfolding(crate::specs::Statements::jal_in))]
fn jal_in<'a>(operands: &[&'a [u8]]) -> Result<Instruction<'a>, LineFault>
    ensures { GivesFault instr_of result (jal_in (map (λ operand. operand.now) operands.now)) }
{
    let [a, b] = operands else {
        return Err(LineFault::Form);
    };
    let rd = register_in(a)?;
    let target = value_in(-1_048_576, 1_048_574, b)?;
    Ok(Instruction::Jal { rd, target })
}

/// `fence rd, rs1, v`
#[tactic(auto, unfolding(crate::specs::Statements::fence_in))]
fn fence_in<'a>(operands: &[&'a [u8]]) -> Result<Instruction<'a>, LineFault>
    ensures { GivesFault instr_of result (fence_in (map (λ operand. operand.now) operands.now)) }
{
    let [a, b, c] = operands else {
        return Err(LineFault::Form);
    };
    let rd = register_in(a)?;
    let rs1 = register_in(b)?;
    let ordering = Immediate::new(natural_within(4095, c)?);
    Ok(Instruction::Whole(Insn::Fence { rd, rs1, ordering }))
}

/// `op rd, rs2, (rs1)`
#[tactic(auto, unfolding(crate::specs::Statements::amo_in))]
fn amo_in<'a>(op: AmoOp, order: Order, operands: &[&'a [u8]]) -> Result<Instruction<'a>, LineFault>
    ensures { GivesFault instr_of result (amo_in op order (map (λ operand. operand.now) operands.now)) }
{
    let [a, b, c] = operands else {
        return Err(LineFault::Form);
    };
    let rd = register_in(a)?;
    let rs2 = register_in(b)?;
    let rs1 = base_in(c)?;
    let Order { aq, rl } = order;
    Ok(Instruction::Whole(Insn::Amo {
        op,
        rd,
        rs1,
        rs2,
        aq,
        rl,
    }))
}

/// `ecall` and `ebreak`
fn bare<'a>(insn: Insn, operands: &[&'a [u8]]) -> Result<Instruction<'a>, LineFault>
    ensures { GivesFault instr_of result (bare insn (map (λ operand. operand.now) operands.now)) }
{
    nothing_in(operands)?;
    Ok(Instruction::Whole(insn))
}
