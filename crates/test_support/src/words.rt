//! Words of cases: a verb and numbers, in decimal or in hex digits after `0x`. A line of a case is what is asked, with
//! commas between calls, and after a colon what each has to answer.

use std::num::ParseIntError;
use std::test::Fail;

/// A verb and its numbers, with zeros after them.
#[derive(Clone, Copy, Debug, PartialEq, Eq, Drop)]
pub struct Words<'a> {
    /// What is asked or reported.
    pub verb: &'a str,
    /// The numbers after it.
    pub numbers: [u32; 4],
}

/// A verb and numbers.
pub fn said(verb: &str, numbers: [u32; 4]) -> Words<'_> {
    Words { verb, numbers }
}

/// Reads a verb and up to four numbers. An empty text is the empty verb.
///
/// # Errors
///
/// If a number cannot be read.
pub fn read_words(text: &str) -> Result<Words<'_>, Fail> {
    let mut pieces = text.split_whitespace();
    let verb = pieces.next().unwrap_or("");
    let a = number_of(pieces.next())?;
    let b = number_of(pieces.next())?;
    let c = number_of(pieces.next())?;
    let d = number_of(pieces.next())?;
    Ok(said(verb, [a, b, c, d]))
}

/// The number that is written there, or 0 if there is none.
fn number_of(piece: Option<&str>) -> Result<u32, ParseIntError> {
    let piece = piece.unwrap_or("0");
    match piece.strip_prefix("0x") {
        Some(digits) => u32::from_str_radix(digits, 16),
        None => piece.parse::<u32>(),
    }
}

/// The lowest byte of a number.
pub fn low(number: u32) -> u8 {
    let [byte, _, _, _] = number.to_le_bytes();
    byte
}

/// What a line asks, and what each answer has to be.
pub fn asked_and_wanted(line: &str) -> (&str, &str) {
    line.split_once(':').unwrap_or((line, ""))
}
