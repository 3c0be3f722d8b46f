//! Faults of values: labels that no line has, and targets that are odd or too far.

ghost use Rattle.std.specs.Prelude.{◌≡◌, ◌^◌, ◌≤ℤ◌, ℕ, ℤ, pos, Some, Ok, IfOk, IfErr, map};
ghost use Rattle.asm_lines.specs.Statements.{val_of, stmt_of, instr_of};
ghost use Rattle.assembler.specs.Meaning.{part_of, offset_from, offset_of, insn_at, words_bytes, statement_bytes};
ghost use Rattle.line_faults.specs.Faults.{fault_in};
ghost use Rattle.line_faults.specs.Places.{label_values};

use crate::labels::Label;
use asm_lines::{Instruction, Statement, Value, low_bits};
use assembler::AsmFault;
use std::collections::BTreeMap;

/// The fault of a number or a label of which only a part of the value is used.
fn value_fault<'a>(labels: &BTreeMap<&'a [u8], Label>, value: &Value<'a>) -> Option<AsmFault>
    ensures { (part : ℕ → ℤ) → result ≡ fault_in (part_of part (label_values labels.now) (val_of value.now)) }
{
    match value {
        Value::Number(_) => None,
        Value::Label(name) => match labels.get(name) {
            Some(_) => None,
            None => Some(AsmFault::LabelMissing),
        },
    }
}

/// The distance of a target from an instruction at this address.
#[tactic(auto, unfolding(assembler::specs::Meaning::offset_of))]
fn distance<'a>(
    labels: &BTreeMap<&'a [u8], Label>,
    at: u32,
    target: &Value<'a>,
) -> Result<i64, AsmFault>
    ensures ok { IfOk result (λ z. part_of (offset_from at) (label_values labels.now) (val_of target.now) ≡ Ok z) }
    ensures err { IfErr result (λ f. (least most : ℤ) → most ≤ℤ pos (2 ^ 32)
        → fault_in (offset_of least most (label_values labels.now) at (val_of target.now)) ≡ Some f) }
{
    match target {
        Value::Number(number) => Ok(*number),
        Value::Label(name) => {
            let Some(label) = labels.get(name).copied() else {
                return Err(AsmFault::LabelMissing);
            };
            // Such an address is farther than all ranges.
            let Ok(address) = i64::try_from(label.address) else {
                return Err(AsmFault::Range);
            };
            Ok(address - i64::from(at))
        }
    }
}

/// The fault of a target of an instruction at this address. Its distance has to be even and from `least` to `most`.
#[tactic(auto, unfolding(assembler::specs::Meaning::offset_of))]
fn target_fault<'a>(
    least: i64,
    most: i64,
    labels: &BTreeMap<&'a [u8], Label>,
    at: u32,
    target: &Value<'a>,
) -> Option<AsmFault>
    requires { most ≤ℤ pos (2 ^ 32) }
    ensures { result ≡ fault_in (offset_of least most (label_values labels.now) at (val_of target.now)) }
{
    let offset = match distance(labels, at, target) {
        Ok(offset) => offset,
        Err(fault) => return Some(fault),
    };
    if offset < least || offset > most || low_bits(2, offset) != 0 {
        return Some(AsmFault::Range);
    }
    None
}

/// The fault of an instruction at this address.
fn instruction_fault<'a>(
    labels: &BTreeMap<&'a [u8], Label>,
    at: u32,
    instruction: &Instruction<'a>,
) -> Option<AsmFault>
    ensures { result ≡ fault_in (insn_at (label_values labels.now) at (instr_of instruction.now)) }
{
    match instruction {
        Instruction::Whole(_) => None,
        Instruction::OpImm { imm, .. }
        | Instruction::Load { imm, .. }
        | Instruction::Store { imm, .. }
        | Instruction::Jalr { imm, .. } => value_fault(labels, imm),
        Instruction::Upper { upper, .. } => value_fault(labels, upper),
        Instruction::Branch { target, .. } => target_fault(-4096, 4094, labels, at, target),
        Instruction::Jal { target, .. } => {
            target_fault(-1_048_576, 1_048_574, labels, at, target)
        }
    }
}

/// The first fault of words.
#[tactic(auto, unfolding(assembler::specs::Meaning::words_bytes))]
fn words_fault<'a>(labels: &BTreeMap<&'a [u8], Label>, values: &[Value<'a>]) -> Option<AsmFault>
    ensures { result ≡ fault_in (words_bytes (label_values labels.now) (map val_of values.now)) }
{
    let mut rest = values;
    while let [value, behind @ ..] = rest {
        if let Some(fault) = value_fault(labels, value) {
            return Some(fault);
        }
        rest = behind;
    }
    None
}

/// The fault of a statement at this address.
pub fn statement_fault<'a>(
    labels: &BTreeMap<&'a [u8], Label>,
    at: u32,
    statement: &Statement<'a>,
) -> Option<AsmFault>
    ensures { result ≡ fault_in (statement_bytes (label_values labels.now) at (stmt_of statement.now)) }
{
    match statement {
        Statement::Section(_) | Statement::Bytes(_) | Statement::Zeros(_) => None,
        Statement::Words(values) => words_fault(labels, values),
        Statement::Instruction(instruction) => instruction_fault(labels, at, instruction),
    }
}
