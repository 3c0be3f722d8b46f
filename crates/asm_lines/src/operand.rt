//! Operands, without the blanks around them.

ghost use Rattle.std.specs.Prelude.{◌≡◌, ◌≤ℤ◌, pos, negsuc, ◌^◌, map};
ghost use Rattle.std.specs.List.{list_all};
ghost use Rattle.std.specs.Option.{option_map};
ghost use Rattle.asm_lines.specs.Steps.{GivesFault};
ghost use Rattle.asm_lines.specs.Statements.{is_letter, is_name_byte, is_name, register_in, value_in, bracket_parts};
ghost use Rattle.asm_lines.specs.Statements.{part_in, upper_in, lower_in, base_in, nothing_in, val_of};

use crate::fault::LineFault;
use crate::number::number_within;
use crate::register::register;
use crate::statement::Value;
use crate::text::{cut_last, trim};
use rv_table::Register;

fn is_letter(byte: u8) -> bool
    ensures { result ≡ is_letter byte }
{
    matches!(byte, b'A'..=b'Z' | b'a'..=b'z' | b'_')
}

fn is_name_byte(byte: u8) -> bool
    ensures { result ≡ is_name_byte byte }
{
    is_letter(byte) || matches!(byte, b'0'..=b'9')
}

fn are_name_bytes(bytes: &[u8]) -> bool
    ensures { result ≡ list_all is_name_byte bytes.now }
{
    bytes.iter().all(|byte| is_name_byte(*byte))
}

/// Whether `word` may be the name of a label.
#[tactic(auto, unfolding(crate::specs::Statements::is_name))]
pub fn is_name(word: &[u8]) -> bool
    ensures { result ≡ is_name word.now }
{
    match word {
        [] => false,
        [first, rest @ ..] => is_letter(*first) && are_name_bytes(rest),
    }
}

/// A register.
#[tactic(auto, unfolding(crate::specs::Statements::register_in))]
pub fn register_in(operand: &[u8]) -> Result<Register, LineFault>
    ensures { result ≡ register_in operand.now }
{
    register(operand).ok_or(LineFault::Form)
}

/// A label, or a number from `least` to `most`.
#[tactic(auto, unfolding(crate::specs::Statements::value_in))]
pub fn value_in(least: i64, most: i64, operand: &[u8]) -> Result<Value<'_>, LineFault>
    requires least { negsuc (2 ^ 32) ≤ℤ least }
    requires most { most ≤ℤ pos (2 ^ 32) }
    ensures { GivesFault val_of result (value_in least most operand.now) }
{
    if is_name(operand) {
        return Ok(Value::Label(operand));
    }
    let number = number_within(least, most, operand)?;
    Ok(Value::Number(number))
}

/// The texts before and within the brackets at the end of the operand.
#[tactic(auto, unfolding(crate::specs::Statements::bracket_parts))]
pub fn bracket_parts(operand: &[u8]) -> Option<(&[u8], &[u8])>
    ensures { option_map (λ parts. (parts.0.now, parts.1.now)) result ≡ bracket_parts operand.now }
{
    let [body @ .., b')'] = operand else {
        return None;
    };
    let (front, inside) = cut_last(body, b'(')?;
    Some((trim(front), trim(inside)))
}

/// The label of `%hi(label)` or `%lo(label)`.
#[tactic(auto, unfolding(crate::specs::Statements::part_in))]
fn part_in<'a>(modifier: &[u8], operand: &'a [u8]) -> Option<&'a [u8]>
    ensures { option_map (λ name. name.now) result ≡ part_in modifier.now operand.now }
{
    let (front, name) = bracket_parts(operand)?;
    if front == modifier && is_name(name) {
        Some(name)
    } else {
        None
    }
}

/// `%hi(label)`, or the upper 20 bits.
#[tactic(auto, unfolding(crate::specs::Statements::upper_in))]
pub fn upper_in(operand: &[u8]) -> Result<Value<'_>, LineFault>
    ensures { GivesFault val_of result (upper_in operand.now) }
{
    if let Some(name) = part_in(b"%hi", operand) {
        return Ok(Value::Label(name));
    }
    let number = number_within(0, 1_048_575, operand)?;
    Ok(Value::Number(number))
}

/// `%lo(label)`, or a signed number of 12 bits.
#[tactic(auto, unfolding(crate::specs::Statements::lower_in))]
pub fn lower_in(operand: &[u8]) -> Result<Value<'_>, LineFault>
    ensures { GivesFault val_of result (lower_in operand.now) }
{
    if let Some(name) = part_in(b"%lo", operand) {
        return Ok(Value::Label(name));
    }
    let number = number_within(-2048, 2047, operand)?;
    Ok(Value::Number(number))
}

/// The register of an operand `(rs1)`.
#[tactic(auto, unfolding(crate::specs::Statements::base_in))]
pub fn base_in(operand: &[u8]) -> Result<Register, LineFault>
    ensures { result ≡ base_in operand.now }
{
    let (front, inside) = bracket_parts(operand).ok_or(LineFault::Form)?;
    if front.is_empty() {
        register_in(inside)
    } else {
        Err(LineFault::Form)
    }
}

/// Checks that there is no operand.
#[tactic(auto, unfolding(crate::specs::Statements::nothing_in))]
pub fn nothing_in(operands: &[&[u8]]) -> Result<(), LineFault>
    ensures { GivesFault (λ _. tt) result (nothing_in (map (λ operand. operand.now) operands.now)) }
{
    match operands {
        [[]] => Ok(()),
        _ => Err(LineFault::Form),
    }
}
