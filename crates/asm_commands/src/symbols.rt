//! `ultra asm --symbols`: the labels of a text, as `nm` prints symbols.

ghost use Rattle.std.specs.Prelude.{◌≡◌, ◌≤◌, ◌++◌, ◌^◌, ℕ, IfOk, OnOk, filter_map, map, option_and_then};
ghost use Rattle.std.specs.Prelude.{option_map, option_to_list, string_bytes};
ghost use Rattle.std.specs.List.Sorted.{IsNonDecreasingBy};
ghost use Rattle.assembler.specs.Meaning.{count_of, lines_of};
ghost use Rattle.assembler.specs.Passes.{nows};
ghost use Rattle.course_text.specs.Course.{plain_text};
ghost use Rattle.line_faults.specs.Places.{label_values, place_of};
ghost use Rattle.asm_commands.specs.declared.text_label.TextLabel.{TextLabel};
ghost use Rattle.asm_commands.specs.SymbolMaps.{IsSymbolMap, end_before, end_of, label_line, label_lines};
ghost use Rattle.asm_commands.specs.SymbolMaps.{label_rows, labels_at, number_text, row_of, row_of_line, row_with};
ghost use Rattle.asm_commands.specs.SymbolMaps.{type_text};

use crate::text_label::TextLabel;
use asm_lines::{LineError, Section, parts_at, read_line};
use assembler::base_of;
use command_io::push_word;
use course_text::course_text;
use fault_lists::{end_place, push_shown};
use line_faults::{Cursor, Label};
use std::alloc::{AllocError, Global};
use std::collections::BTreeMap;

/// The labels of a text with their values, in the order of its lines.
///
/// # Errors
///
/// [`AllocError`] if there is no memory, or if the text has more than 2^62 bytes for a section.
pub fn text_labels<'a>(alloc: Global, text: &'a [u8]) -> Result<Vec<TextLabel<'a>>, AllocError>
    ensures { IfOk result (λ labels. map row_of labels.items ≡ label_rows (lines_of text.now)) }
{
    let lines = parts_at(alloc, text, b'\n')?;
    let end = end_place(alloc, &lines)?;
    labels_in(alloc, &end.labels, &lines)
}

/// The labels of lines, with these values.
fn labels_in<'a>(
    alloc: Global,
    values: &BTreeMap<&'a [u8], Label>,
    lines: &[&'a [u8]],
) -> Result<Vec<TextLabel<'a>>, AllocError>
    ensures { IfOk result (λ labels. map row_of labels.items
        ≡ filter_map (row_of_line (label_values values.now)) (nows lines.now)) }
{
    let mut labels = Vec::new(alloc);
    for line in lines {
        let found = label_of(alloc, values, line)?;
        keep(&mut labels, found)?;
    }
    Ok(labels)
}

/// Appends a label, if there is one.
fn keep<'a>(labels: &mut Vec<TextLabel<'a>>, found: Option<TextLabel<'a>>) -> Result<(), AllocError>
    ensures { OnOk result (labels.new.items ≡ labels.old.items ++ option_to_list found.entry) }
{
    if let Some(label) = found {
        labels.push(label)?;
    }
    Ok(())
}

/// The label of a line, if it has one, with its value.
fn label_of<'a>(
    alloc: Global,
    values: &BTreeMap<&'a [u8], Label>,
    line: &'a [u8],
) -> Result<Option<TextLabel<'a>>, AllocError>
    ensures { IfOk result (λ found. option_map row_of found ≡ row_of_line (label_values values.now) line.now) }
{
    match read_line(alloc, line) {
        Ok(said) => Ok(label_with(values, said.label)),
        Err(LineError::Memory) => Err(AllocError),
        Err(LineError::Fault(_)) => Ok(None),
    }
}

/// A label with its value, if there is one with this name.
fn label_with<'a>(
    values: &BTreeMap<&'a [u8], Label>,
    name: Option<&'a [u8]>,
) -> Option<TextLabel<'a>>
    ensures { option_map row_of result
        ≡ option_and_then (row_with (label_values values.now)) (option_map (λ n. n.now) name.entry) }
{
    let name = name?;
    let label = values.get(&name).copied()?;
    Some(TextLabel {
        name,
        section: label.section,
        address: label.address,
    })
}

/// The labels by address. Those at one address stay in their order.
fn by_address<'a>(mut labels: Vec<TextLabel<'a>>) -> Result<Vec<TextLabel<'a>>, AllocError>
    ensures order { IfOk result (λ sorted. IsNonDecreasingBy (λ (l : TextLabel). l.address) sorted.items) }
    ensures same { IfOk result (λ sorted. (address : ℕ) →
        labels_at address sorted.items ≡ labels_at address labels.entry.items) }
{
    labels.sort_by_key(|label| label.address)?;
    Ok(labels)
}

/// The map of a text's labels: a line for each label, by address, as `nm -S` prints symbols. The size of a label is up
/// to the next label, or to the end of its section.
///
/// # Errors
///
/// [`AllocError`] if there is no memory, or if the text has more than 2^62 bytes for a section.
pub fn symbol_map(alloc: Global, text: &[u8]) -> Result<String, AllocError>
    ensures { IfOk result (λ map. IsSymbolMap text.now (string_bytes map)) }
{
    let lines = parts_at(alloc, text, b'\n')?;
    let end = end_place(alloc, &lines)?;
    let labels = labels_in(alloc, &end.labels, &lines)?;
    let sorted = by_address(labels)?;
    let mut map = String::new(alloc);
    push_labels(alloc, &mut map, &end, &sorted)?;
    Ok(map)
}

/// The map of the labels of a course text: that of its plain text.
///
/// # Errors
///
/// [`AllocError`] as [`symbol_map`], or if the plain text is too long.
pub fn course_symbol_map(alloc: Global, text: &[u8]) -> Result<String, AllocError>
    ensures { IfOk result (λ map. IsSymbolMap (plain_text text.now) (string_bytes map)) }
{
    let plain = course_text(alloc, text)?;
    symbol_map(alloc, plain.text.as_slice())
}

/// Appends the lines of labels, which are by address, of a text that ends at this place.
fn push_labels(
    alloc: Global,
    text: &mut String,
    end: &Cursor<'_>,
    labels: &[TextLabel<'_>],
) -> Result<(), AllocError>
    ensures { OnOk result (string_bytes text.new ≡ string_bytes text.old ++ label_lines (place_of end.now) labels.now) }
{
    for (at, label) in labels.iter().enumerate() {
        let others = labels.split_at(at + 1).1;
        push_label(alloc, text, label, end_before(end, label.section, others))?;
    }
    Ok(())
}

/// Where the bytes of a label in this section end: at the first of the labels after it, and not past the section's end.
fn end_before(end: &Cursor<'_>, section: Section, others: &[TextLabel<'_>]) -> u64
    ensures { result ≡ end_before (place_of end.now) section others.now }
{
    let last = end_of(end, section);
    match others.first() {
        Some(next) => next.address.min(last),
        None => last,
    }
}

/// The address after the last byte of a section.
fn end_of(end: &Cursor<'_>, section: Section) -> u64
    ensures { result ≡ end_of (place_of end.now) section }
{
    u64::from(base_of(section)) + count_in(end, section)
}

/// The number of bytes in a section.
fn count_in(end: &Cursor<'_>, section: Section) -> u64
    ensures exact { result ≡ count_of section (place_of end.now) }
    ensures small { result ≤ 2 ^ 62 }
{
    match section {
        Section::Code => end.code,
        Section::Local => end.local,
        Section::Shared => end.shared,
    }
}

/// Appends the line of a label whose bytes end at this address: its address and size in eight hex digits each, the
/// letter for its type, and its name.
fn push_label(
    alloc: Global,
    text: &mut String,
    label: &TextLabel<'_>,
    end: u64,
) -> Result<(), AllocError>
    ensures { OnOk result (string_bytes text.new ≡ string_bytes text.old ++ label_line end label.now) }
{
    push_number(alloc, text, label.address)?;
    text.push(' ')?;
    push_number(alloc, text, end.saturating_sub(label.address))?;
    text.push_str(type_text(label.section))?;
    push_shown(alloc, text, label.name)?;
    text.push('\n')
}

/// Appends a number in eight hex digits.
fn push_number(alloc: Global, text: &mut String, number: u64) -> Result<(), AllocError>
    ensures { OnOk result (string_bytes text.new ≡ string_bytes text.old ++ number_text number) }
{
    push_word(alloc, text, (number % 0x1_0000_0000) as u32)
}

/// The letter for the type of a symbol in a section, between blanks.
fn type_text(section: Section) -> &'static str
    ensures { result.now ≡ type_text section }
{
    match section {
        Section::Code => " t ",
        Section::Local | Section::Shared => " d ",
    }
}
