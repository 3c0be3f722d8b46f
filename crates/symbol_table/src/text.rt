//! Symbols as `nm` prints them.

ghost use Rattle.std.specs.Prelude.{◌≡◌, IfOk, map};
ghost use Rattle.std.specs.Option.{option_map};
ghost use Rattle.symbol_table.specs.Rows.{row_of};
ghost use Rattle.symbol_table.specs.Text.{are_hex_digits, hex_number, is_hex, is_letter, line_row, row_with, text_rows};

use crate::bytes::cut;
use crate::row::{Symbol, keep, name_of};
use std::alloc::{AllocError, Global};

/// The symbols of a text, in the order of its lines.
pub fn text_symbols<'a>(alloc: Global, text: &'a [u8]) -> Result<Vec<Symbol<'a>>, AllocError>
    ensures { IfOk result (λ symbols. map row_of symbols.items ≡ text_rows text.now) }
{
    let mut symbols = Vec::new(alloc);
    let mut rest = text;
    while let Some((line, after)) = cut(rest, b'\n') {
        keep(&mut symbols, line_symbol(line))?;
        rest = after;
    }
    keep(&mut symbols, line_symbol(rest))?;
    Ok(symbols)
}

/// The symbol of a line, if it has one.
#[tactic(auto, unfolding(crate::specs::Text::line_row))]
fn line_symbol(line: &[u8]) -> Option<Symbol<'_>>
    ensures { option_map row_of result ≡ line_row line.now }
{
    let (address, rest) = cut(line, b' ')?;
    let (second, rest) = cut(rest, b' ')?;
    match cut(rest, b' ') {
        None => symbol_with(hex_number(address), Some(0), second, rest),
        Some((letter, name)) => {
            symbol_with(hex_number(address), hex_number(second), letter, name)
        }
    }
}

/// The symbol with this address, size, type and name, if each of them is right.
fn symbol_with<'a>(
    address: Option<u32>,
    size: Option<u32>,
    letter: &[u8],
    name: &'a [u8],
) -> Option<Symbol<'a>>
    ensures { option_map row_of result ≡ row_with address size letter.now name.now }
{
    let name = name_of(name)?;
    let address = address?;
    let size = size?;
    if is_letter(letter) {
        Some(Symbol {
            address,
            size,
            name,
        })
    } else {
        None
    }
}

/// Whether a text is one letter.
fn is_letter(text: &[u8]) -> bool
    ensures { result ≡ is_letter text.now }
{
    match text {
        [letter] => letter.is_ascii_alphabetic(),
        _ => false,
    }
}

/// The number that is written as 1 to 8 or 16 hex digits, if it is below 2^32.
#[tactic(auto, unfolding(crate::specs::Text::hex_number))]
fn hex_number(digits: &[u8]) -> Option<u32>
    ensures { result ≡ hex_number digits.now }
{
    if !is_hex(digits) {
        return None;
    }
    match str::from_utf8(digits) {
        Ok(text) => u32::from_str_radix(text, 16).ok(),
        Err(_) => None,
    }
}

/// Whether the bytes are 1 to 8 or 16 hex digits.
#[tactic(auto, unfolding(crate::specs::Text::is_hex))]
fn is_hex(bytes: &[u8]) -> bool
    ensures { result ≡ is_hex bytes.now }
{
    let count = bytes.len();
    ((1 <= count && count <= 8) || count == 16) && are_hex_digits(bytes)
}

fn are_hex_digits(bytes: &[u8]) -> bool
    ensures { result ≡ are_hex_digits bytes.now }
{
    bytes.iter().all(|byte| byte.is_ascii_hexdigit())
}
