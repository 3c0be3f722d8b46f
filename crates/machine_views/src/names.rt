//! The names in a picture.

ghost use Rattle.std.specs.Prelude.{◌≡◌, ◌++◌, IfOk, OnOk, option_and_then, string_bytes};
ghost use Rattle.std.specs.Char.{encode_utf8};
ghost use Rattle.std.specs.List.{flat_map};
ghost use Rattle.std.specs.Option.{option_copied, option_map};
ghost use Rattle.symbol_table.specs.Rows.{named_place, place_in};
ghost use Rattle.machine_views.specs.Names.{address_of_word, naming, offset_text, pc_text, rows_in, shared_word_text};
ghost use Rattle.machine_views.specs.Names.{short_label, short_name};

use command_io::push_word;
use std::alloc::{AllocError, Global};
use std::fmt::Write;
use std::marker::Model;
use symbol_table::{Place, SymbolTable};

/// The address of shared word 0.
const SHARED_START: u32 = 0x8000_0000;

/// The names in a picture: those of a table of symbols, if there is one, each in a number of letters.
#[derive(Debug, Drop)]
pub struct Names<'a> {
    symbols: Option<&'a SymbolTable<'a>>,
    letters: usize,
}

impl<'a> Model for Names<'a> {
    ghost use Rattle.std.specs.Option.{option_copied};
    ghost use Rattle.machine_views.specs.Names.{Naming, naming, rows_in};

    ghost Value = { Naming };

    ghost view = { λ n. naming (rows_in (option_copied n.symbols)) n.letters };
}

impl<'a> Names<'a> {
    /// The names that a table has, if there is one. One of more than this many letters is cut, but not its offset.
    /// Without a table nothing has a name.
    pub fn of(symbols: Option<&'a SymbolTable<'a>>, letters: usize) -> Self
        ensures { result ≡ naming (rows_in (option_copied symbols.entry)) letters }
    {
        Names { symbols, letters }
    }

    /// The place of an address, if there is an address and it has a place.
    fn place(&self, address: Option<u32>) -> Option<Place<'a>>
        ensures { option_map named_place result ≡ option_and_then (place_in self.now.rows) address }
    {
        let address = address?;
        match self.symbols {
            Some(symbols) => symbols.place(address),
            None => None,
        }
    }
}

/// Appends a program counter: its name, or eight hex digits if it has none.
pub fn push_pc(
    alloc: Global,
    text: &mut String,
    names: &Names<'_>,
    pc: u32,
) -> Result<(), AllocError>
    ensures { OnOk result (string_bytes text.new ≡ string_bytes text.old ++ pc_text names.now pc) }
{
    match names.place(Some(pc)) {
        Some(place) => push_short(alloc, text, &place, names.letters),
        None => push_word(alloc, text, pc),
    }
}

/// Appends a shared word: its name, or its number if it has none.
pub fn push_shared_word(
    alloc: Global,
    text: &mut String,
    names: &Names<'_>,
    number: u32,
) -> Result<(), AllocError>
    ensures { OnOk result (string_bytes text.new ≡ string_bytes text.old ++ shared_word_text names.now number) }
{
    match names.place(address_of_word(number)) {
        Some(place) => push_short(alloc, text, &place, names.letters),
        None => write!(text, "word {number}"),
    }
}

/// The address of the shared word with this number, if it has one.
fn address_of_word(number: u32) -> Option<u32>
    ensures { result ≡ address_of_word number }
{
    if number < 0x2000_0000 {
        Some(SHARED_START + 4 * number)
    } else {
        None
    }
}

/// Appends the name of a place in this many letters. If it has more, its label is cut, and the offset is whole.
#[tactic(auto, unfolding(crate::specs::Names::short_name))]
fn push_short(
    alloc: Global,
    text: &mut String,
    place: &Place<'_>,
    letters: usize,
) -> Result<(), AllocError>
    ensures { OnOk result (string_bytes text.new
        ≡ string_bytes text.old ++ short_name letters (named_place place.now)) }
{
    let offset = offset_text(alloc, place.offset)?;
    push_label(text, place.name, letters.saturating_sub(offset.len()))?;
    text.push_str(offset.as_str())
}

/// The offset of an address from its symbol's, and nothing for 0.
fn offset_text(alloc: Global, offset: u32) -> Result<String, AllocError>
    ensures { IfOk result (λ text. string_bytes text ≡ offset_text offset) }
{
    if offset == 0 {
        Ok(String::new(alloc))
    } else {
        format!(in alloc; "+0x{offset:x}")
    }
}

/// Appends a label in this many letters: its first ones and two dots, if it has more.
fn push_label(text: &mut String, label: &str, letters: usize) -> Result<(), AllocError>
    ensures { OnOk result (string_bytes text.new ≡ string_bytes text.old ++ short_label letters label.now) }
{
    if label.len() <= letters {
        return text.push_str(label);
    }
    push_letters(text, label.as_bytes().split_at(letters.saturating_sub(2)).0)?;
    text.push_str("..")
}

/// Appends letters, each of one byte.
fn push_letters(text: &mut String, letters: &[u8]) -> Result<(), AllocError>
    ensures { OnOk result (string_bytes text.new ≡ string_bytes text.old ++ flat_map encode_utf8 letters.now) }
{
    for letter in letters {
        text.push(char::from(*letter))?;
    }
    Ok(())
}
