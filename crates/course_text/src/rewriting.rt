//! Rewriting a line.

ghost use Rattle.std.specs.Prelude.{◌≡◌, ◌++◌, IfOk};
ghost use Rattle.std.specs.Option.{option_map};
ghost use Rattle.course_text.specs.Constants.{constant_values};
ghost use Rattle.course_text.specs.Course.{section_named, section_text, by_word, statement_text, lead, operand_text};
ghost use Rattle.course_text.specs.Course.{with_numbers, unless_plain, plain_line};
ghost use Rattle.course_text.specs.Views.{nows, bytes_of, parts_view};

use crate::bytes::text_from;
use crate::constants::replaced;
use crate::definitions::defines;
use crate::forms::form_text;
use crate::numbers::{WRONG_FORM, align_text, balign_text, constant_text, li_text};
use crate::parts::{Parts, words_of};
use crate::place::Place;
use crate::plain::is_plain;
use crate::table::Word;
use crate::templates::row_text;
use std::alloc::{AllocError, Global};
use std::collections::BTreeMap;

/// The word of a section, by the beginning of its name.
fn section_named(name: &[u8]) -> Option<&'static [u8]>
    ensures { option_map (λ s. s.now) result ≡ section_named name.now }
{
    if name.starts_with(b".text") || name.starts_with(b".rodata") {
        Some(b".code")
    } else if name.starts_with(b".data")
        || name.starts_with(b".bss")
        || name.starts_with(b".sdata")
        || name.starts_with(b".sbss")
    {
        Some(b".shared")
    } else if name.starts_with(b".local") {
        Some(b".local")
    } else {
        None
    }
}

/// The plain line of `.section name`.
fn section_text(alloc: Global, words: &[&[u8]]) -> Result<Option<Vec<u8>>, AllocError>
    ensures { IfOk result (λ text. option_map bytes_of text ≡ section_text (nows words.now)) }
{
    let [_, name, ..] = words else {
        return Ok(Some(text_from(alloc, WRONG_FORM)?));
    };
    match section_named(name) {
        None => Ok(None),
        Some(section) => Ok(Some(text_from(alloc, section)?)),
    }
}

/// The plain statement of a word of course texts, after this many bytes of the section.
fn by_word(
    alloc: Global,
    count: u32,
    words: &[&[u8]],
    word: Word,
) -> Result<Option<Vec<u8>>, AllocError>
    ensures { IfOk result (λ text. option_map bytes_of text ≡ by_word count (nows words.now) word) }
{
    match word {
        Word::Row(row) => Ok(Some(row_text(alloc, row, words)?)),
        Word::Silent(_) => Ok(Some(Vec::new(alloc))),
        Word::Li => Ok(Some(li_text(alloc, words)?)),
        Word::DotEqu | Word::DotSet => Ok(Some(constant_text(alloc, words)?)),
        Word::DotAlign | Word::DotP2align => Ok(Some(align_text(alloc, count, words)?)),
        Word::DotBalign => Ok(Some(balign_text(alloc, count, words)?)),
        Word::DotSection => section_text(alloc, words),
    }
}

/// The plain statement of a first word and the text after it, if it is one of course texts.
#[tactic(auto, unfolding(crate::specs::Course::statement_text))]
fn statement_text(
    alloc: Global,
    count: u32,
    word: &[u8],
    rest: &[u8],
) -> Result<Option<Vec<u8>>, AllocError>
    ensures { IfOk result (λ text. option_map bytes_of text ≡ statement_text count word.now rest.now) }
{
    let words = words_of(alloc, word, rest)?;
    match Word::find(word) {
        None => form_text(alloc, word, &words),
        Some(found) => by_word(alloc, count, &words, found),
    }
}

/// A label with its colon, or nothing.
fn lead(alloc: Global, label: Option<&[u8]>) -> Result<Vec<u8>, AllocError>
    ensures { IfOk result (λ text. text.items ≡ lead (option_map (λ n. n.now) label.entry)) }
{
    let mut text = Vec::new(alloc);
    if let Some(name) = label {
        text.extend_from_slice(name)?;
        text.extend_from_slice(b": ")?;
    }
    Ok(text)
}

/// The text of a line's operands, with numbers for constants.
fn operand_text<'a>(
    alloc: Global,
    constants: &BTreeMap<&'a [u8], i64>,
    parts: &Parts<'a>,
) -> Result<Vec<u8>, AllocError>
    ensures { IfOk result (λ text. text.items ≡ operand_text (constant_values constants.now) (parts_view parts.now)) }
{
    if defines(Word::find(parts.word)) {
        text_from(alloc, parts.rest)
    } else {
        replaced(alloc, constants, parts.rest)
    }
}

/// The line with this text for its operands: itself if that is the same.
fn with_numbers(
    alloc: Global,
    line: &[u8],
    parts: &Parts<'_>,
    rest: &[u8],
) -> Result<Vec<u8>, AllocError>
    ensures { IfOk result (λ text. text.items ≡ with_numbers line.now (parts_view parts.now) rest.now) }
{
    if rest == parts.rest {
        return text_from(alloc, line);
    }
    let mut text = lead(alloc, parts.label)?;
    text.extend_from_slice(parts.word)?;
    text.extend_from_slice(b" ")?;
    text.extend_from_slice(rest)?;
    Ok(text)
}

/// The line, or what it is rewritten to if the plain grammar does not read it.
fn unless_plain(
    alloc: Global,
    place: &Place,
    parts: &Parts<'_>,
    rest: &[u8],
    line: Vec<u8>,
) -> Result<Vec<u8>, AllocError>
    ensures { IfOk result (λ text. text.items ≡ unless_plain place.now (parts_view parts.now) rest.now line.items) }
{
    if is_plain(alloc, &line)? {
        return Ok(line);
    }
    match statement_text(alloc, place.count(), parts.word, rest)? {
        None => Ok(line),
        Some(statement) => {
            let mut text = lead(alloc, parts.label)?;
            text.extend_from_slice(&statement)?;
            Ok(text)
        }
    }
}

/// The plain line or lines of a course line at its place, with LF between two lines.
///
/// # Errors
///
/// [`AllocError`] if memory is short.
#[tactic(auto, unfolding(crate::specs::Course::plain_line))]
pub fn plain_line<'a>(
    alloc: Global,
    constants: &BTreeMap<&'a [u8], i64>,
    place: &Place,
    line: &'a [u8],
) -> Result<Vec<u8>, AllocError>
    ensures { IfOk result (λ text. text.items ≡ plain_line (constant_values constants.now) place.now line.now) }
{
    let parts = Parts::of(line);
    let rest = operand_text(alloc, constants, &parts)?;
    let line = with_numbers(alloc, line, &parts, &rest)?;
    unless_plain(alloc, place, &parts, &rest, line)
}
