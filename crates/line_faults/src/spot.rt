//! The word at fault in a line, and what would be right.

ghost use Rattle.std.specs.Prelude.{◌≡◌, ◌%◌, ◌==◌, IfOk, Some, map, unwrap_or, option_and_then, if◌then◌else◌};
ghost use Rattle.std.specs.Option.{option_map};
ghost use Rattle.assembler.specs.Meaning.{address};
ghost use Rattle.line_faults.specs.AdviceAtFault.{IsAdviceIn, IsAdvised, IsLabelAdvice, distance_advice};
ghost use Rattle.line_faults.specs.AdviceAtFault.{far_or_odd, place_advice, last_wanted, twice_advice};
ghost use Rattle.line_faults.specs.Places.{first_lines, label_values, place_of, symbol_of};
ghost use Rattle.line_faults.specs.WordAtFault.{missing_within, label_missing, target_span};
ghost use Rattle.line_faults.specs.WordAtFault.{word_within, word_at_fault};
ghost use Rattle.word_faults.specs.Advice.{advice_of};
ghost use Rattle.word_faults.specs.Spans.{StandsIn, span_of};
ghost use Rattle.word_faults.specs.Views.{line_spans, spot_span, spot_advice};
ghost use Rattle.word_faults.specs.Wants.{shape_wants, wanted_at, wants_of};
ghost use Rattle.word_faults.specs.WrongOperands.{first_in};

use crate::cursor::Cursor;
use crate::labels::{Label, Search};
use assembler::{AsmFault, room_of};
use std::alloc::{AllocError, Global};
use std::collections::BTreeMap;
use word_faults::{
    Hint, Parts, Piece, Shape, Spot, Wanted, operand_at, unknown_word, wrong_operand,
};

/// What is known of a line when the search for its fault begins.
#[derive(Drop)]
pub struct Around<'v, 'a> {
    /// The place of the line.
    pub cursor: &'v Cursor<'a>,
    /// The labels of the whole text.
    pub labels: &'v BTreeMap<&'a [u8], Label>,
}

/// The spot of a line's fault.
///
/// # Errors
///
/// [`AllocError`] if memory is short.
#[tactic(auto, unfolding(crate::specs::WordAtFault::word_at_fault, crate::specs::AdviceAtFault::IsAdvised))]
pub fn spot_of<'a>(
    alloc: Global,
    around: &Around<'_, 'a>,
    search: &mut Search,
    line: &'a [u8],
    fault: AsmFault,
) -> Result<Spot<'a>, AllocError>
    ensures named { IfOk result (λ spot. spot_span spot
        ≡ word_at_fault (label_values around.now.labels.now) (address
        (place_of around.now.cursor.now)) line.now fault) }
    ensures stands { IfOk result (λ spot. StandsIn line.now (spot_span spot)) }
    ensures advised { IfOk result (λ spot. IsAdvised (label_values around.now.labels.now)
        (first_lines around.now.cursor.now) (place_of around.now.cursor.now) line.now fault
        (spot_advice spot)) }
{
    spot_within(alloc, around, search, &Parts::of(line), fault)
}

/// The spot of the fault of a line with these parts.
fn spot_within<'a>(
    alloc: Global,
    around: &Around<'_, 'a>,
    search: &mut Search,
    parts: &Parts<'a>,
    fault: AsmFault,
) -> Result<Spot<'a>, AllocError>
    ensures named { IfOk result (λ spot. spot_span spot
        ≡ word_within (label_values around.now.labels.now) (address (place_of around.now.cursor.now))
        (line_spans parts.now) fault) }
    ensures advised { IfOk result (λ spot. IsAdviceIn (label_values around.now.labels.now)
        (first_lines around.now.cursor.now) (place_of around.now.cursor.now) (line_spans parts.now) fault
        (spot_advice spot)) }
{
    match fault {
        AsmFault::UnknownWord => unknown_word(alloc, parts),
        AsmFault::Form => match wrong_operand(alloc, parts)? {
            Some(spot) => Ok(spot),
            None => Ok(Spot {
                piece: parts.word,
                hint: Hint::OutsideCode,
            }),
        },
        AsmFault::Range => match wrong_operand(alloc, parts)? {
            Some(spot) => Ok(spot),
            None => misplacement(alloc, around, parts),
        },
        AsmFault::LabelTwice => Ok(twice(around, parts)),
        AsmFault::LabelMissing => missing(alloc, around, search, parts),
        AsmFault::SectionFull | AsmFault::Memory => Ok(Spot {
            piece: parts.word,
            hint: Hint::Full {
                section: around.cursor.section,
                room: room_of(around.cursor.section),
                taken: around.cursor.count(),
            },
        }),
    }
}

/// The spot of a statement that has right numbers, but may not be at its place or cannot reach its target.
fn misplacement<'a>(
    alloc: Global,
    around: &Around<'_, 'a>,
    parts: &Parts<'a>,
) -> Result<Spot<'a>, AllocError>
    ensures spot { IfOk result (λ spot. spot_span spot
        ≡ (if address (place_of around.now.cursor.now) % 4 == 0 then target_span (line_spans parts.now)
        else span_of parts.now.word)) }
    ensures advice { IfOk result (λ spot. spot_advice spot
        ≡ place_advice (label_values around.now.labels.now) (line_spans parts.now)
        (address (place_of around.now.cursor.now))) }
{
    let address = around.cursor.address();
    if address % 4 == 0 {
        let piece = target_of(alloc, parts)?;
        let hint = target_hint(around, parts, piece, address);
        return Ok(Spot { piece, hint });
    }
    Ok(Spot {
        piece: parts.word,
        hint: Hint::Unaligned(address),
    })
}

/// The target of a branch or a jump: the last operand.
fn target_of<'a>(alloc: Global, parts: &Parts<'a>) -> Result<Piece<'a>, AllocError>
    ensures { IfOk result (λ piece. span_of piece ≡ target_span (line_spans parts.now)) }
{
    let operands = parts.operands(alloc)?;
    match operand_at(&operands, operands.len().saturating_sub(1)) {
        Some(target) => Ok(target),
        None => Ok(parts.word),
    }
}

/// Advice on a target that is odd, or too far from the instruction at this address.
fn target_hint<'a>(
    around: &Around<'_, 'a>,
    parts: &Parts<'a>,
    target: Piece<'a>,
    address: u64,
) -> Hint<'a>
    ensures { advice_of result ≡ distance_advice (last_wanted (wants_of parts.now.word.bytes.now))
        (label_values around.now.labels.now target.entry.bytes.now) address }
{
    let wanted = last_wanted(parts.word.bytes);
    let label = around.labels.get(&target.bytes).copied();
    distance_hint(wanted, label, address)
}

/// Advice on a target that is a label, for the instruction at this address.
fn distance_hint<'a>(wanted: Option<Wanted>, label: Option<Label>, address: u64) -> Hint<'a>
    ensures { advice_of result ≡ distance_advice wanted (option_map symbol_of label) address }
{
    match (wanted, label) {
        (Some(wanted), Some(label)) => far_or_odd(wanted, label.address, address),
        _ => Hint::Odd,
    }
}

/// What the last operand after a first word has to be.
fn last_wanted(word: &[u8]) -> Option<Wanted>
    ensures { result ≡ last_wanted (wants_of word.now) }
{
    match Shape::of(word) {
        Some(shape) => shape.operands.last().copied(),
        None => None,
    }
}

/// Advice that a target within reach is odd, or how far the target is from the instruction at this address.
fn far_or_odd<'a>(wanted: Wanted, target: u64, address: u64) -> Hint<'a>
    ensures { advice_of result ≡ far_or_odd wanted target address }
{
    let (least, most) = wanted.range();
    let distance = target.abs_diff(address);
    let reach = if target < address { least } else { most };
    if distance <= reach.unsigned_abs() {
        Hint::Odd
    } else {
        Hint::Far(distance, wanted)
    }
}

/// The spot of a label that an earlier line has too.
fn twice<'a>(around: &Around<'_, 'a>, parts: &Parts<'a>) -> Spot<'a>
    ensures spot { spot_span result ≡ unwrap_or (line_spans parts.now).label (span_of parts.now.word) }
    ensures advice { spot_advice result
        ≡ twice_advice (first_lines around.now.cursor.now (spot_span result).bytes) }
{
    let piece = match parts.label {
        Some(label) => label,
        None => parts.word,
    };
    let hint = match around.cursor.line_of(piece.bytes) {
        Some(line) => Hint::StandsOn(line),
        // Never for a line that has this fault: an earlier line has its label.
        None => Hint::NoLabel,
    };
    Spot { piece, hint }
}

/// The spot of the first label that no line has.
fn missing<'a>(
    alloc: Global,
    around: &Around<'_, 'a>,
    search: &mut Search,
    parts: &Parts<'a>,
) -> Result<Spot<'a>, AllocError>
    ensures spot { IfOk result (λ spot. spot_span spot
        ≡ unwrap_or (label_missing (label_values around.now.labels.now) (line_spans parts.now))
        (span_of parts.now.word)) }
    ensures advice { IfOk result (λ spot. IsLabelAdvice (label_values around.now.labels.now) (spot_span spot).bytes
        (spot_advice spot)) }
{
    let piece = match missing_label(alloc, around.labels, parts)? {
        Some(label) => label,
        None => parts.word,
    };
    let hint = match search.near(alloc, around.labels, piece.bytes)? {
        Some(near) => Hint::NearLabel(near),
        None => Hint::NoLabel,
    };
    Ok(Spot { piece, hint })
}

/// The first label after a line's first word that no line has.
fn missing_label<'a>(
    alloc: Global,
    labels: &BTreeMap<&'a [u8], Label>,
    parts: &Parts<'a>,
) -> Result<Option<Piece<'a>>, AllocError>
    ensures { IfOk result (λ found. option_map span_of found
        ≡ label_missing (label_values labels.now) (line_spans parts.now)) }
{
    match Shape::of(parts.word.bytes) {
        Some(shape) => {
            let operands = parts.operands(alloc)?;
            Ok(first_missing(labels, &shape, &operands))
        }
        None => Ok(None),
    }
}

/// The first label of these operands that no line has.
fn first_missing<'a>(
    labels: &BTreeMap<&'a [u8], Label>,
    shape: &Shape,
    operands: &[Piece<'a>],
) -> Option<Piece<'a>>
    ensures { option_map span_of result
        ≡ first_in (missing_within (label_values labels.now)) (shape_wants shape.now) 0 (map span_of operands.now) }
{
    let _count = operands.len();
    let mut number = 0;
    let mut rest = operands;
    while let [operand, behind @ ..] = rest {
        if let Some(label) = missing_at(labels, shape, number, *operand) {
            return Some(label);
        }
        number += 1;
        rest = behind;
    }
    None
}

/// The label of the operand with this number, if no line has it.
fn missing_at<'a>(
    labels: &BTreeMap<&'a [u8], Label>,
    shape: &Shape,
    number: usize,
    operand: Piece<'a>,
) -> Option<Piece<'a>>
    ensures { option_map span_of result
        ≡ option_and_then (λ wanted. missing_within (label_values labels.now) wanted (span_of operand.entry))
        (wanted_at (shape_wants shape.now) number) }
{
    match shape.operand_at(number) {
        Some(wanted) => missing_in(labels, wanted, operand),
        None => None,
    }
}

/// The label that an operand names, if no line has it.
fn missing_in<'a>(
    labels: &BTreeMap<&'a [u8], Label>,
    wanted: Wanted,
    operand: Piece<'a>,
) -> Option<Piece<'a>>
    ensures { option_map span_of result ≡ missing_within (label_values labels.now) wanted (span_of operand.entry) }
{
    match wanted.label_in(operand) {
        Some(label) if !labels.contains_key(&label.bytes) => Some(label),
        _ => None,
    }
}
