//! Wrong operands.

ghost use Rattle.std.specs.Prelude.{◌≡◌, ◌==◌, ◌&&◌, not, IfOk, map, length, find, slice_get, if◌then◌else◌, Some};
ghost use Rattle.std.specs.Prelude.{None};
ghost use Rattle.std.specs.Prelude.{is_some, option_and_then, pos};
ghost use Rattle.std.specs.List.{list_any};
ghost use Rattle.std.specs.Option.{option_map, option_or};
ghost use Rattle.asm_lines.specs.Text.{is_blank};
ghost use Rattle.asm_lines.specs.Statements.{is_name};
ghost use Rattle.word_faults.specs.Spans.{span_of, bracketed_span};
ghost use Rattle.word_faults.specs.Advice.{advice_of, comma, takes};
ghost use Rattle.word_faults.specs.OperandAdvice.{advice_within, address_advice, base_advice, brackets_advice};
ghost use Rattle.word_faults.specs.OperandAdvice.{count_advice, form_advice};
ghost use Rattle.word_faults.specs.OperandAdvice.{operands_advice, range_advice, register_advice, some_operands_advice};
ghost use Rattle.word_faults.specs.OperandAdvice.{value_advice};
ghost use Rattle.asm_lines.specs.Number.{number_within};
ghost use Rattle.word_faults.specs.Views.{line_spans, spot_span, spot_advice};
ghost use Rattle.word_faults.specs.Wants.{shape_wants, wanted_at};
ghost use Rattle.word_faults.specs.WrongOperands.{is_parted, label_within, part_label, value_fault, register_fault};
ghost use Rattle.word_faults.specs.WrongOperands.{address_fault};
ghost use Rattle.word_faults.specs.WrongOperands.{base_fault, fault_within, first_in, count_fault, some_operands_fault};
ghost use Rattle.word_faults.specs.WrongOperands.{operands_fault, form_fault};

use crate::hint::Hint;
use crate::parts::Parts;
use crate::piece::Piece;
use crate::positions::{has, has_blank};
use crate::shape::{Shape, Wanted};
use crate::spot::Spot;
use asm_lines::{LineFault, is_name, number_within, register_named};
use std::alloc::{AllocError, Global};

/// The first operand that is wrong or missing.
pub fn wrong_operand<'a>(alloc: Global, parts: &Parts<'a>) -> Result<Option<Spot<'a>>, AllocError>
    ensures spot { IfOk result (λ found. option_map spot_span found ≡ form_fault (line_spans parts.now)) }
    ensures advice { IfOk result (λ found. option_map spot_advice found ≡ form_advice (line_spans parts.now)) }
{
    match Shape::of(parts.word.bytes) {
        Some(shape) => wrong_for(alloc, &shape, parts),
        None => Ok(None),
    }
}

/// What is wrong with operands that have to have this shape.
fn wrong_for<'a>(
    alloc: Global,
    shape: &Shape,
    parts: &Parts<'a>,
) -> Result<Option<Spot<'a>>, AllocError>
    ensures spot { IfOk result (λ found. option_map spot_span found
        ≡ operands_fault (shape_wants shape.now) (span_of parts.now.rest)) }
    ensures advice { IfOk result (λ found. option_map spot_advice found
        ≡ operands_advice (shape_wants shape.now) (span_of parts.now.rest)) }
{
    if shape.operands.is_empty() {
        let rest = parts.rest.trim();
        return Ok(Spot::unless(rest.bytes.is_empty(), rest, Hint::NoOperand));
    }
    let operands = parts.operands(alloc)?;
    Ok(wrong_among(shape, parts.rest, &operands))
}

/// What is wrong with these operands.
fn wrong_among<'a>(shape: &Shape, rest: Piece<'a>, operands: &[Piece<'a>]) -> Option<Spot<'a>>
    ensures spot { option_map spot_span result
        ≡ some_operands_fault (shape_wants shape.now) (span_of rest.entry) (map span_of operands.now) }
    ensures advice { option_map spot_advice result
        ≡ some_operands_advice (shape_wants shape.now) (map span_of operands.now) }
{
    match wrong_count(shape, rest, operands) {
        Some(spot) => Some(spot),
        None => first_wrong(shape, operands),
    }
}

/// The first operand that is wrong.
fn first_wrong<'a>(shape: &Shape, operands: &[Piece<'a>]) -> Option<Spot<'a>>
    ensures spot { option_map spot_span result
        ≡ first_in fault_within (shape_wants shape.now) 0 (map span_of operands.now) }
    ensures advice { option_map spot_advice result
        ≡ first_in advice_within (shape_wants shape.now) 0 (map span_of operands.now) }
{
    let _count = operands.len();
    let mut number = 0;
    let mut rest = operands;
    while let [operand, behind @ ..] = rest {
        if let Some(spot) = wrong_at(shape, number, *operand) {
            return Some(spot);
        }
        number += 1;
        rest = behind;
    }
    None
}

/// What is wrong with the operand with this number.
fn wrong_at<'a>(shape: &Shape, number: usize, operand: Piece<'a>) -> Option<Spot<'a>>
    ensures spot { option_map spot_span result
        ≡ option_and_then (λ wanted. fault_within wanted (span_of operand.entry))
        (wanted_at (shape_wants shape.now) number) }
    ensures advice { option_map spot_advice result
        ≡ option_and_then (λ wanted. advice_within wanted (span_of operand.entry))
        (wanted_at (shape_wants shape.now) number) }
{
    match shape.operand_at(number) {
        Some(wanted) => wanted.look(operand),
        None => None,
    }
}

/// What is wrong with the number of operands.
fn wrong_count<'a>(shape: &Shape, rest: Piece<'a>, operands: &[Piece<'a>]) -> Option<Spot<'a>>
    ensures spot { option_map spot_span result ≡ (if shape.now.is_list then None
        else count_fault (length shape.now.operands.now) (span_of rest.entry) (map span_of operands.now)) }
    ensures advice { option_map spot_advice result ≡ (if shape.now.is_list then None
        else count_advice shape.now.form.now (length shape.now.operands.now) (map span_of operands.now)) }
{
    if shape.is_list || operands.len() == shape.operands.len() {
        return None;
    }
    Some(match extra_or_parted(shape, operands) {
        Some(spot) => spot,
        None => Spot {
            piece: rest.trim().end(),
            hint: Hint::Operands(shape.form),
        },
    })
}

/// The first operand too many, or else the first in which a comma is missing.
fn extra_or_parted<'a>(shape: &Shape, operands: &[Piece<'a>]) -> Option<Spot<'a>>
    ensures spot { option_map spot_span result
        ≡ option_or (slice_get (map span_of operands.now) (length shape.now.operands.now))
        (find is_parted (map span_of operands.now)) }
    ensures advice { option_map spot_advice result
        ≡ (if is_some (slice_get (map span_of operands.now) (length shape.now.operands.now))
        then Some (takes shape.now.form.now)
        else option_map (λ parted. comma shape.now.form.now) (find is_parted (map span_of operands.now))) }
{
    if let Some(extra) = operand_at(operands, shape.operands.len()) {
        return Some(Spot {
            piece: extra,
            hint: Hint::Operands(shape.form),
        });
    }
    match first_parted(operands) {
        Some(parted) => Some(Spot {
            piece: parted,
            hint: Hint::Comma(shape.form),
        }),
        None => None,
    }
}

/// The operand with this number, from 0.
pub fn operand_at<'a>(operands: &[Piece<'a>], number: usize) -> Option<Piece<'a>>
    ensures { option_map span_of result ≡ slice_get (map span_of operands.now) number }
{
    operands.get(number).copied()
}

/// The first operand in which a comma is missing.
fn first_parted<'a>(operands: &[Piece<'a>]) -> Option<Piece<'a>>
    ensures { option_map span_of result ≡ find is_parted (map span_of operands.now) }
{
    let mut rest = operands;
    while let [operand, behind @ ..] = rest {
        if is_parted(operand.bytes) {
            return Some(*operand);
        }
        rest = behind;
    }
    None
}

/// Whether an operand has a blank but no bracket.
fn is_parted(operand: &[u8]) -> bool
    ensures { result ≡ (list_any is_blank operand.now && not (list_any (λ b. b == 40) operand.now)) }
{
    has_blank(operand) && !has(operand, b'(')
}

impl Wanted {
    /// What is wrong with an operand.
    fn look<'a>(self, operand: Piece<'a>) -> Option<Spot<'a>>
        ensures spot { option_map spot_span result ≡ fault_within self (span_of operand.entry) }
        ensures advice { option_map spot_advice result ≡ advice_within self (span_of operand.entry) }
    {
        match self {
            Wanted::Register => look_at_register(operand),
            Wanted::Address => look_at_address(operand),
            Wanted::Base => look_at_base(operand),
            _ => self.look_at_value(operand),
        }
    }

    /// The label that an operand names, in the form that is wanted.
    pub fn label_in<'a>(self, operand: Piece<'a>) -> Option<Piece<'a>>
        ensures { option_map span_of result ≡ label_within self (span_of operand.entry) }
    {
        match self {
            Wanted::Branch | Wanted::Jump | Wanted::Word => name_in(operand),
            Wanted::Lower => part_in(b"%lo", operand),
            Wanted::Upper => part_in(b"%hi", operand),
            Wanted::Address => match operand.bracket_parts() {
                Some((front, _)) => part_in(b"%lo", front),
                None => None,
            },
            _ => None,
        }
    }

    /// What is wrong with a number or a label.
    fn look_at_value<'a>(self, operand: Piece<'a>) -> Option<Spot<'a>>
        ensures spot { option_map spot_span result ≡ value_fault self (span_of operand.entry) }
        ensures advice { option_map spot_advice result ≡ value_advice self (span_of operand.entry) }
    {
        if self.label_in(operand).is_some() {
            return None;
        }
        let (least, most) = self.range();
        let hint = match number_within(least, most, operand.bytes) {
            Ok(_) => return None,
            Err(LineFault::Range) => self.range_hint(operand),
            Err(_) => Hint::Wants(self),
        };
        Some(Spot {
            piece: operand,
            hint,
        })
    }

    /// What would be right in place of a number out of range.
    fn range_hint<'a>(self, operand: Piece<'a>) -> Hint<'a>
        ensures { advice_of result
            ≡ range_advice self (number_within (pos 0) (pos 4294967295) operand.entry.bytes.now) }
    {
        match (self, number_within(0, 4_294_967_295, operand.bytes)) {
            (Wanted::Upper, Ok(word)) => Hint::UpperBits(word.unsigned_abs() / 4096),
            _ => Hint::OutOfRange(self),
        }
    }
}

/// The operand, if it is a label.
fn name_in(operand: Piece<'_>) -> Option<Piece<'_>>
    ensures { option_map span_of result
        ≡ (if is_name operand.entry.bytes.now then Some (span_of operand.entry) else None) }
{
    if is_name(operand.bytes) {
        Some(operand)
    } else {
        None
    }
}

/// The label of `%hi(label)` or `%lo(label)`.
fn part_in<'a>(modifier: &[u8], operand: Piece<'a>) -> Option<Piece<'a>>
    ensures { option_map span_of result ≡ part_label modifier.now (span_of operand.entry) }
{
    if let Some((front, name)) = operand.bracket_parts() {
        if front.bytes == modifier && is_name(name.bytes) {
            return Some(name);
        }
    }
    None
}

/// What is wrong with a register.
fn look_at_register<'a>(operand: Piece<'a>) -> Option<Spot<'a>>
    ensures spot { option_map spot_span result ≡ register_fault (span_of operand.entry) }
    ensures advice { option_map spot_advice result ≡ register_advice (span_of operand.entry) }
{
    let is_register = register_named(operand.bytes).is_some();
    Spot::unless(is_register, operand, Hint::Wants(Wanted::Register))
}

/// What is wrong with `i(rs1)`.
fn look_at_address<'a>(operand: Piece<'a>) -> Option<Spot<'a>>
    ensures spot { option_map spot_span result
        ≡ address_fault (span_of operand.entry) (bracketed_span (span_of operand.entry)) }
    ensures advice { option_map spot_advice result
        ≡ address_advice (span_of operand.entry) (bracketed_span (span_of operand.entry)) }
{
    let Some((number, base)) = operand.bracket_parts() else {
        return Some(without_brackets(operand, Wanted::Address));
    };
    match Wanted::Lower.look_at_value(number) {
        Some(spot) => Some(spot),
        None => look_at_register(base),
    }
}

/// What is wrong with `(rs1)`.
fn look_at_base<'a>(operand: Piece<'a>) -> Option<Spot<'a>>
    ensures spot { option_map spot_span result
        ≡ base_fault (span_of operand.entry) (bracketed_span (span_of operand.entry)) }
    ensures advice { option_map spot_advice result
        ≡ base_advice (span_of operand.entry) (bracketed_span (span_of operand.entry)) }
{
    let Some((front, base)) = operand.bracket_parts() else {
        return Some(without_brackets(operand, Wanted::Base));
    };
    if !front.bytes.is_empty() {
        return Some(Spot {
            piece: front,
            hint: Hint::Wants(Wanted::Base),
        });
    }
    look_at_register(base)
}

/// The fault of an operand in which one bracket is missing, or both are.
fn without_brackets<'a>(operand: Piece<'a>, wanted: Wanted) -> Spot<'a>
    ensures spot { spot_span result ≡ span_of operand.entry }
    ensures advice { spot_advice result ≡ brackets_advice wanted (span_of operand.entry) }
{
    let hint = if has(operand.bytes, b'(') || has(operand.bytes, b')') {
        Hint::Bracket
    } else {
        Hint::Wants(wanted)
    };
    Spot {
        piece: operand,
        hint,
    }
}
