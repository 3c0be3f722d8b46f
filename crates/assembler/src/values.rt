//! The values of labels, and instructions with these values.

ghost use Rattle.std.specs.Prelude.{◌≡◌};
ghost use Rattle.asm_lines.specs.Number.{low_bits};
ghost use Rattle.asm_lines.specs.Statements.{val_of, instr_of};
ghost use Rattle.assembler.specs.Meaning.{value_of, part_of, offset_of, lower_field, upper_field, branch_field};
ghost use Rattle.assembler.specs.Meaning.{jump_field, insn_at};
ghost use Rattle.assembler.specs.Passes.{label_values, taken};

use crate::fault::AsmFault;
use crate::symbol::Symbol;
use asm_lines::{Instruction, Value, low_bits};
use rv_table::{Immediate, Insn};
use std::collections::BTreeMap;

/// The part of a label's value that an immediate takes.
#[derive(Clone, Copy, Debug, PartialEq, Eq, Drop)]
pub enum Part {
    /// The value itself.
    Whole,
    /// `%hi`: the immediate of LUI or AUIPC to which adding `%lo` gives the value.
    High,
    /// `%lo`: the low 12 bits, as a signed number.
    Low,
    /// The offset from this address.
    Offset(u32),
}

impl Part {
    fn of(self, value: u32) -> i64
        ensures { result ≡ taken self value }
    {
        let value = i64::from(value);
        match self {
            Part::Whole => value,
            Part::High => (value + 0x800) % 0x1_0000_0000 / 4096,
            Part::Low => (value + 0x800) % 4096 - 0x800,
            Part::Offset(from) => value - i64::from(from),
        }
    }
}

/// Returns the section and the value of a label.
pub fn value_of<'a>(labels: &BTreeMap<&'a [u8], Symbol>, name: &'a [u8]) -> Result<Symbol, AsmFault>
    ensures { result ≡ value_of (label_values labels.now) name.now }
{
    labels.get(&name).copied().ok_or(AsmFault::LabelMissing)
}

/// Returns a number, or a part of a label's value.
pub fn number_of<'a>(
    labels: &BTreeMap<&'a [u8], Symbol>,
    part: Part,
    value: &Value<'a>,
) -> Result<i64, AsmFault>
    ensures { result ≡ part_of (taken part) (label_values labels.now) (val_of value.now) }
{
    match value {
        Value::Number(number) => Ok(*number),
        Value::Label(name) => {
            let symbol = value_of(labels, name)?;
            Ok(part.of(symbol.address))
        }
    }
}

/// Returns the field of an I- or S-immediate.
fn lower<'a>(
    labels: &BTreeMap<&'a [u8], Symbol>,
    value: &Value<'a>,
) -> Result<Immediate<12>, AsmFault>
    ensures { result ≡ lower_field (label_values labels.now) (val_of value.now) }
{
    let number = number_of(labels, Part::Low, value)?;
    Ok(Immediate::new(low_bits(0x1000, number) as u32))
}

/// Returns the field of a U-immediate.
fn upper<'a>(
    labels: &BTreeMap<&'a [u8], Symbol>,
    value: &Value<'a>,
) -> Result<Immediate<20>, AsmFault>
    ensures { result ≡ upper_field (label_values labels.now) (val_of value.now) }
{
    let number = number_of(labels, Part::High, value)?;
    Ok(Immediate::new(low_bits(0x10_0000, number) as u32))
}

/// Returns the offset of a target. It has to be even, and from `least` to `most`.
#[tactic(auto, unfolding(crate::specs::Meaning::offset_of))]
fn offset_of<'a>(
    least: i64,
    most: i64,
    labels: &BTreeMap<&'a [u8], Symbol>,
    at: u32,
    target: &Value<'a>,
) -> Result<i64, AsmFault>
    ensures { result ≡ offset_of least most (label_values labels.now) at (val_of target.now) }
{
    let offset = number_of(labels, Part::Offset(at), target)?;
    if offset < least || offset > most || low_bits(2, offset) != 0 {
        return Err(AsmFault::Range);
    }
    Ok(offset)
}

/// Returns the offset of a branch's target, in steps of two bytes.
fn branch_field<'a>(
    labels: &BTreeMap<&'a [u8], Symbol>,
    at: u32,
    target: &Value<'a>,
) -> Result<Immediate<12>, AsmFault>
    ensures { result ≡ branch_field (label_values labels.now) at (val_of target.now) }
{
    let offset = offset_of(-4096, 4094, labels, at, target)?;
    Ok(Immediate::new((low_bits(0x2000, offset) / 2) as u32))
}

/// Returns the offset of a jump's target, in steps of two bytes.
fn jump_field<'a>(
    labels: &BTreeMap<&'a [u8], Symbol>,
    at: u32,
    target: &Value<'a>,
) -> Result<Immediate<20>, AsmFault>
    ensures { result ≡ jump_field (label_values labels.now) at (val_of target.now) }
{
    let offset = offset_of(-1_048_576, 1_048_574, labels, at, target)?;
    Ok(Immediate::new((low_bits(0x20_0000, offset) / 2) as u32))
}

/// Returns an instruction at its address, with the values of its labels.
///
/// # Errors
///
/// [`AsmFault::LabelMissing`] if no line has its label; [`AsmFault::Range`] if its target is odd or too far.
pub fn insn_at<'a>(
    labels: &BTreeMap<&'a [u8], Symbol>,
    at: u32,
    instruction: &Instruction<'a>,
) -> Result<Insn, AsmFault>
    ensures { result ≡ insn_at (label_values labels.now) at (instr_of instruction.now) }
{
    Ok(match instruction {
        Instruction::Whole(insn) => *insn,
        Instruction::OpImm { op, rd, rs1, imm } => Insn::OpImm {
            op: *op,
            rd: *rd,
            rs1: *rs1,
            imm: lower(labels, imm)?,
        },
        Instruction::Load { op, rd, rs1, imm } => Insn::Load {
            op: *op,
            rd: *rd,
            rs1: *rs1,
            imm: lower(labels, imm)?,
        },
        Instruction::Store { op, rs1, rs2, imm } => Insn::Store {
            op: *op,
            rs1: *rs1,
            rs2: *rs2,
            imm: lower(labels, imm)?,
        },
        Instruction::Branch {
            op,
            rs1,
            rs2,
            target,
        } => Insn::Branch {
            op: *op,
            rs1: *rs1,
            rs2: *rs2,
            offset: branch_field(labels, at, target)?,
        },
        Instruction::Upper {
            op,
            rd,
            upper: value,
        } => Insn::Upper {
            op: *op,
            rd: *rd,
            upper: upper(labels, value)?,
        },
        Instruction::Jal { rd, target } => Insn::Jal {
            rd: *rd,
            offset: jump_field(labels, at, target)?,
        },
        Instruction::Jalr { rd, rs1, imm } => Insn::Jalr {
            rd: *rd,
            rs1: *rs1,
            imm: lower(labels, imm)?,
        },
    })
}
