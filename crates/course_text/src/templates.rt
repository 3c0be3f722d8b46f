//! Templates, with the words of a line at their marks.

ghost use Rattle.std.specs.Prelude.{◌≡◌, ◌++◌, IfOk, OnOk, drop, ◌+◌, map};
ghost use Rattle.std.specs.List.{flat_map};
ghost use Rattle.course_text.specs.Templates.{piece, filled, after_comma, row_text};
ghost use Rattle.course_text.specs.Views.{nows};

use crate::table::Row;
use std::alloc::{AllocError, Global};

/// Appends what stands at a byte of a template.
fn push_piece(text: &mut Vec<u8>, words: &[&[u8]], byte: u8) -> Result<(), AllocError>
    ensures { OnOk result (text.new.items ≡ text.old.items ++ piece (nows words.now) byte) }
{
    if !(b'@'..=b'C').contains(&byte) {
        text.push(byte)?;
        return Ok(());
    }
    match words.get((byte - b'@') as usize) {
        None => Ok(()),
        Some(word) => text.extend_from_slice(word),
    }
}

/// The template with the words at its marks.
#[tactic(auto, unfolding(crate::specs::Templates::filled))]
pub fn filled(alloc: Global, words: &[&[u8]], template: &str) -> Result<Vec<u8>, AllocError>
    ensures { IfOk result (λ text. text.items ≡ filled (nows words.now) template.now) }
{
    let mut text = Vec::new(alloc);
    for byte in template.as_bytes() {
        push_piece(&mut text, words, *byte)?;
    }
    Ok(text)
}

/// Appends an operand after a comma.
fn push_operand(text: &mut Vec<u8>, operand: &[u8]) -> Result<(), AllocError>
    ensures { OnOk result (text.new.items ≡ text.old.items ++ after_comma operand.now) }
{
    text.extend_from_slice(b", ")?;
    text.extend_from_slice(operand)
}

/// Appends the operands after these many words.
fn push_operands(text: &mut Vec<u8>, words: &[&[u8]], count: usize) -> Result<(), AllocError>
    ensures { OnOk result (text.new.items ≡ text.old.items ++ flat_map after_comma (drop count (nows words.now))) }
{
    if words.len() < count {
        return Ok(());
    }
    for operand in words.split_at(count).1 {
        push_operand(text, operand)?;
    }
    Ok(())
}

/// The plain line of a row of the table.
#[tactic(auto, unfolding(crate::specs::Templates::row_text))]
pub fn row_text(alloc: Global, row: Row, words: &[&[u8]]) -> Result<Vec<u8>, AllocError>
    ensures { IfOk result (λ text. text.items ≡ row_text row (nows words.now)) }
{
    let mut text = filled(alloc, words, row.template())?;
    push_operands(&mut text, words, row.operand_count() + 1)?;
    Ok(text)
}
