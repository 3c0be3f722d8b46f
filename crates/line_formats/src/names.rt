//! Lines with the names of their addresses, and with values in decimal.

ghost use Rattle.std.specs.Prelude.{◌≡◌, ◌++◌, OnOk, string_bytes};
ghost use Rattle.line_formats.specs.Names.{address_of_number, address_of_word, field_text, insn_text, is_address};
ghost use Rattle.line_formats.specs.Names.{line_address, named_line, named_part, named_parts, part_address};
ghost use Rattle.line_formats.specs.Names.{place_after, value_text, writing};
ghost use Rattle.line_formats.specs.Places.{place_in};
ghost use Rattle.line_shapes.specs.Parts.{cuts_of};

use crate::decimals::push_decimals;
use crate::format::LineFormat;
use crate::instructions::push_instruction;
use crate::places::{Places, push_place};
use line_shapes::{Kind, Part, Shape, decimal_value, first_cut, shape_of, word_value};
use std::alloc::{AllocError, Global};

/// The address of shared word 0.
const SHARED_START: u32 = 0x8000_0000;

/// The format that prints each line as it is, and after each address and each number of a shared word the name of the
/// place, by these shapes. Values can be in decimal.
#[derive(Drop)]
pub struct Names<'a, P> {
    /// The shapes of lines.
    pub shapes: &'a [Shape],
    /// The names, if there are any.
    pub places: Option<P>,
    /// Whether instructions have registers by the names of their use, and the addresses to which they jump.
    pub disassembly: bool,
    /// Whether values of words are in decimal, in two's complement. Addresses and encodings stay in hex.
    pub decimal: bool,
}

impl<P: Places> LineFormat for Names<'_, P> {
    ghost use Rattle.line_formats.specs.Formats.{named_text};

    ghost text = { named_text P.place };

    fn text(&self, alloc: Global, line: &str) -> Result<Vec<u8>, AllocError> {
        let mut text = String::new(alloc);
        push_line(alloc, self, line, &mut text)?;
        text.push('\n')?;
        Ok(text.into_bytes())
    }
}

/// Appends a line with names.
#[tactic(auto, unfolding(crate::specs::Names::named_line))]
fn push_line<P: Places>(
    alloc: Global,
    names: &Names<'_, P>,
    line: &str,
    text: &mut String,
) -> Result<(), AllocError>
    ensures { OnOk result (string_bytes text.new ≡ string_bytes text.old
        ++ named_line (place_in P.place names.now.places) names.now.disassembly names.now.decimal
        names.now.shapes.now line.now) }
{
    match shape_of(names.shapes, line) {
        Some(shape) => {
            let address = line_address(shape.1, line);
            push_parts(alloc, names, address, shape.1, line, text)
        }
        None => text.push_str(line),
    }
}

/// The address of the first part that has one.
fn line_address(parts: &[Part], line: &str) -> Option<u32>
    ensures { result ≡ line_address (cuts_of parts.now line.now) }
{
    let (part, field, others, rest) = first_cut(parts, line)?;
    match part_address(&part, field) {
        Some(address) => Some(address),
        None => line_address(others, rest),
    }
}

/// The address that a part has, if it is the field `address`.
fn part_address(part: &Part, field: &str) -> Option<u32>
    ensures { result ≡ part_address part.now field.now }
{
    match part {
        Part::Literal(_) => None,
        Part::Field(_, name, _) => {
            if *name == "address" {
                word_value(field)
            } else {
                None
            }
        }
    }
}

/// Appends the parts of a line with names.
fn push_parts<P: Places>(
    alloc: Global,
    names: &Names<'_, P>,
    address: Option<u32>,
    parts: &[Part],
    line: &str,
    text: &mut String,
) -> Result<(), AllocError>
    ensures { OnOk result (string_bytes text.new ≡ string_bytes text.old
        ++ named_parts (place_in P.place names.now.places)
        (writing (place_in P.place names.now.places) names.now.disassembly names.now.decimal address)
        (cuts_of parts.now line.now)) }
{
    let Some((part, field, others, rest)) = first_cut(parts, line) else {
        return Ok(());
    };
    push_part(alloc, names, address, &part, field, text)?;
    push_parts(alloc, names, address, others, rest, text)
}

/// Appends a part with its field, and the place of its field.
fn push_part<P: Places>(
    alloc: Global,
    names: &Names<'_, P>,
    address: Option<u32>,
    part: &Part,
    field: &str,
    text: &mut String,
) -> Result<(), AllocError>
    ensures { OnOk result (string_bytes text.new ≡ string_bytes text.old
        ++ named_part (place_in P.place names.now.places)
        (writing (place_in P.place names.now.places) names.now.disassembly names.now.decimal address) part.now
        field.now) }
{
    match part {
        Part::Literal(word) => text.push_str(word),
        Part::Field(word, name, kind) => {
            text.push_str(word)?;
            push_field(alloc, names, address, name, kind, field, text)?;
            push_place_after(&names.places, name, kind, field, text)
        }
    }
}

/// Appends a field: an instruction or a value as it is wanted, and any other as it stands.
fn push_field<P: Places>(
    alloc: Global,
    names: &Names<'_, P>,
    address: Option<u32>,
    name: &str,
    kind: &Kind,
    field: &str,
    text: &mut String,
) -> Result<(), AllocError>
    ensures { OnOk result (string_bytes text.new ≡ string_bytes text.old
        ++ field_text (writing (place_in P.place names.now.places) names.now.disassembly names.now.decimal address)
        name.now kind.now field.now) }
{
    match kind {
        Kind::Text => {
            if name == "instruction" {
                push_insn(alloc, names, address, field, text)
            } else {
                text.push_str(field)
            }
        }
        Kind::Word => {
            if is_address(name) {
                text.push_str(field)
            } else {
                push_value(names.decimal, field, text)
            }
        }
        Kind::Words | Kind::Function => push_value(names.decimal, field, text),
        _ => text.push_str(field),
    }
}

/// Appends the text of a value, in decimal if that is wanted.
fn push_value(decimal: bool, value: &str, text: &mut String) -> Result<(), AllocError>
    ensures { OnOk result (string_bytes text.new ≡ string_bytes text.old ++ value_text decimal value.now) }
{
    if decimal {
        push_decimals(value, text)
    } else {
        text.push_str(value)
    }
}

/// Appends an instruction as it is wanted.
fn push_insn<P: Places>(
    alloc: Global,
    names: &Names<'_, P>,
    address: Option<u32>,
    insn: &str,
    text: &mut String,
) -> Result<(), AllocError>
    ensures { OnOk result (string_bytes text.new ≡ string_bytes text.old
        ++ insn_text (place_in P.place names.now.places) names.now.disassembly address insn.now) }
{
    if names.disassembly {
        push_instruction(alloc, &names.places, address, insn, text)
    } else {
        text.push_str(insn)
    }
}

/// Appends the place of the address that a field has, or of the shared word that it numbers, if any.
fn push_place_after<P: Places>(
    places: &Option<P>,
    name: &str,
    kind: &Kind,
    field: &str,
    text: &mut String,
) -> Result<(), AllocError>
    ensures { OnOk result (string_bytes text.new ≡ string_bytes text.old
        ++ place_after (place_in P.place places.now) name.now kind.now field.now) }
{
    match kind {
        Kind::Word => {
            if is_address(name) {
                push_place(places, word_value(field), " <", ">", text)
            } else {
                Ok(())
            }
        }
        Kind::Number => {
            if name == "word" {
                push_place(places, address_of_word(field), " (", ")", text)
            } else {
                Ok(())
            }
        }
        _ => Ok(()),
    }
}

/// Whether a field of this name has an address.
fn is_address(name: &str) -> bool
    ensures { result ≡ is_address name.now }
{
    name == "pc" || name == "address"
}

/// The address of the shared word whose number is this text.
fn address_of_word(text: &str) -> Option<u32>
    ensures { result ≡ address_of_word text.now }
{
    address_of_number(decimal_value(text)?)
}

/// The address of the shared word with this number, if it has one.
fn address_of_number(number: u32) -> Option<u32>
    ensures { result ≡ address_of_number number }
{
    if number < 0x2000_0000 {
        Some(SHARED_START + 4 * number)
    } else {
        None
    }
}
