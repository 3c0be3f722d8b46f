//! Reading a line.

ghost use Rattle.std.specs.Prelude.{◌≡◌, ok_or, map};
ghost use Rattle.std.specs.Option.{option_map};
ghost use Rattle.asm_lines.specs.Steps.{Gives, GivesFault};
ghost use Rattle.asm_lines.specs.Statements.{val_of, stmt_of, said_of, each, word_in, byte_in, count_in};
ghost use Rattle.asm_lines.specs.Statements.{directive_in, chosen, statement_in, rest_of_line, label_in, said_in};
ghost use Rattle.asm_lines.specs.Statements.{line_of};

use crate::directive::Directive;
use crate::fault::{LineError, LineFault};
use crate::instruction::instruction_in;
use crate::mnemonic::Mnemonic;
use crate::number::{low_bits, natural_within, number_within};
use crate::operand::{is_name, nothing_in, value_in};
use crate::statement::{Line, Statement, Value};
use crate::text::{cut, cut_blank, operands_of, trim};
use std::alloc::Global;

/// A label, or a number that fits in a word, signed or unsigned.
fn word_in(operand: &[u8]) -> Result<Value<'_>, LineFault>
    ensures { GivesFault val_of result (word_in operand.now) }
{
    value_in(-2_147_483_648, 4_294_967_295, operand)
}

/// A byte, signed or unsigned.
#[tactic(auto, unfolding(crate::specs::Statements::byte_in))]
fn byte_in(operand: &[u8]) -> Result<u8, LineFault>
    ensures { result ≡ byte_in operand.now }
{
    let number = number_within(-128, 255, operand)?;
    Ok(low_bits(256, number) as u8)
}

fn words_in<'a>(alloc: Global, operands: &[&'a [u8]]) -> Result<Vec<Value<'a>>, LineError>
    ensures { Gives (λ values. map val_of values.items) result
        (each word_in (map (λ operand. operand.now) operands.now)) }
{
    let mut values = Vec::new(alloc);
    for operand in operands {
        let value = word_in(operand)?;
        values.push(value)?;
    }
    Ok(values)
}

fn bytes_in(alloc: Global, operands: &[&[u8]]) -> Result<Vec<u8>, LineError>
    ensures { Gives (λ bytes. bytes.items) result (each byte_in (map (λ operand. operand.now) operands.now)) }
{
    let mut bytes = Vec::new(alloc);
    for operand in operands {
        let byte = byte_in(operand)?;
        bytes.push(byte)?;
    }
    Ok(bytes)
}

fn count_in(operands: &[&[u8]]) -> Result<u32, LineFault>
    ensures { result ≡ count_in (map (λ operand. operand.now) operands.now) }
{
    let [operand] = operands else {
        return Err(LineFault::Form);
    };
    natural_within(1_048_576, operand)
}

#[tactic(auto, unfolding(crate::specs::Statements::directive_in))]
fn directive_in<'a>(
    alloc: Global,
    directive: Directive,
    operands: &[&'a [u8]],
) -> Result<Statement<'a>, LineError>
    ensures { Gives stmt_of result (directive_in directive (map (λ operand. operand.now) operands.now)) }
{
    match directive {
        Directive::Section(section) => {
            nothing_in(operands)?;
            Ok(Statement::Section(section))
        }
        Directive::Word => Ok(Statement::Words(words_in(alloc, operands)?)),
        Directive::Byte => Ok(Statement::Bytes(bytes_in(alloc, operands)?)),
        Directive::Zero => Ok(Statement::Zeros(count_in(operands)?)),
    }
}

/// The statement with this first word and the text after it.
#[tactic(auto, unfolding(crate::specs::Statements::statement_in))]
fn statement_in<'a>(alloc: Global, word: &[u8], rest: &'a [u8]) -> Result<Statement<'a>, LineError>
    ensures { Gives stmt_of result (statement_in word.now rest.now) }
{
    let operands = operands_of(alloc, rest)?;
    if let Some(directive) = Directive::find(word) {
        return directive_in(alloc, directive, &operands);
    }
    let (mnemonic, order) = Mnemonic::find(word).ok_or(LineFault::Unknown)?;
    match instruction_in(mnemonic, order, &operands) {
        Ok(instruction) => Ok(Statement::Instruction(instruction)),
        Err(fault) => Err(LineError::Fault(fault)),
    }
}

/// The statement of a text, or none if the text is blank.
#[tactic(auto, unfolding(crate::specs::Statements::rest_of_line))]
fn rest_of_line<'a>(alloc: Global, text: &'a [u8]) -> Result<Option<Statement<'a>>, LineError>
    ensures { Gives (λ s. option_map stmt_of s) result (rest_of_line text.now) }
{
    let text = trim(text);
    if text.is_empty() {
        return Ok(None);
    }
    let (word, rest) = cut_blank(text).unwrap_or((text, &[]));
    match statement_in(alloc, word, rest) {
        Ok(statement) => Ok(Some(statement)),
        Err(error) => Err(error),
    }
}

/// The label before the first colon and the text after it; without a label, the whole text.
#[tactic(auto, unfolding(crate::specs::Statements::label_in))]
fn label_in(text: &[u8]) -> (Option<&[u8]>, &[u8])
    ensures { (option_map (λ name. name.now) result.0, result.1.now) ≡ label_in text.now }
{
    if let Some((front, rest)) = cut(text, b':') {
        let name = trim(front);
        if is_name(name) {
            return (Some(name), rest);
        }
    }
    (None, text)
}

#[tactic(auto, unfolding(crate::specs::Statements::said_in))]
fn said_in<'a>(alloc: Global, text: &'a [u8]) -> Result<Line<'a>, LineError>
    ensures { Gives said_of result (said_in text.now) }
{
    let (label, rest) = label_in(text);
    match rest_of_line(alloc, rest) {
        Ok(statement) => Ok(Line { label, statement }),
        Err(error) => Err(error),
    }
}

/// Reads a line, which is given without its LF.
///
/// # Errors
///
/// [`LineError::Fault`] with what is wrong with the line, [`LineError::Memory`] if memory is short.
#[tactic(auto, unfolding(crate::specs::Statements::line_of))]
pub fn read_line<'a>(alloc: Global, bytes: &'a [u8]) -> Result<Line<'a>, LineError>
    ensures { Gives said_of result (line_of bytes.now) }
{
    match cut(bytes, b'#') {
        None => said_in(alloc, bytes),
        Some((text, _)) => said_in(alloc, text),
    }
}
