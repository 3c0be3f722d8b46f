//! The numbers that words say.

ghost use Rattle.std.specs.Prelude.{◌≡◌};
ghost use Rattle.trace_text.specs.Words.{hex_byte_in, hex_word_in, number_in};

use crate::fault::TextFault;
use asm_lines::{LineFault, number_within};

/// The number from 0 to 255 that a word says, in decimal digits or in `0x` and hex digits.
///
/// # Errors
///
/// [`TextFault::Form`] if the word is no number, [`TextFault::Range`] if the number is out of this range.
#[tactic(auto, unfolding(crate::specs::Words::number_in, asm_lines::specs::Number::natural_within))]
pub(crate) fn number_in(word: &[u8]) -> Result<u8, TextFault>
    ensures { result ≡ number_in word.now }
{
    match number_within(0, 255, word) {
        Ok(number) => Ok(number.unsigned_abs() as u8),
        Err(LineFault::Range) => Err(TextFault::Range),
        Err(LineFault::Form | LineFault::Unknown) => Err(TextFault::Form),
    }
}

/// The value or address of eight hex digits, the highest first.
#[tactic(auto, unfolding(crate::specs::Words::hex_word_in))]
pub(crate) fn hex_word_in(word: &[u8]) -> Option<u32>
    ensures { result ≡ hex_word_in word.now }
{
    let mut bytes = [0u8; 4];
    match hex::decode_to_slice(word, &mut bytes) {
        Ok(()) => Some(u32::from_be_bytes(bytes)),
        Err(_) => None,
    }
}

/// The byte of two hex digits.
#[tactic(auto, unfolding(crate::specs::Words::hex_byte_in))]
pub(crate) fn hex_byte_in(word: &[u8]) -> Option<u8>
    ensures { result ≡ hex_byte_in word.now }
{
    let mut bytes = [0u8; 1];
    match hex::decode_to_slice(word, &mut bytes) {
        Ok(()) => Some(bytes[0]),
        Err(_) => None,
    }
}
