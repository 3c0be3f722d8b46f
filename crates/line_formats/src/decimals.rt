//! Values in decimal.

ghost use Rattle.std.specs.Prelude.{◌≡◌, ◌++◌, OnOk, string_bytes};
ghost use Rattle.line_formats.specs.Decimals.{decimal_text, decimal_word};

use line_shapes::{first_word, word_value};
use std::alloc::AllocError;
use std::fmt::Write;

/// Appends a text with each of its words of eight hex digits in decimal, in two's complement.
pub(crate) fn push_decimals(words: &str, text: &mut String) -> Result<(), AllocError>
    ensures { OnOk result (string_bytes text.new ≡ string_bytes text.old ++ decimal_text words.now) }
{
    match first_word(words) {
        None => push_decimal(words, text),
        Some((word, rest)) => {
            push_decimal(word, text)?;
            text.push(' ')?;
            push_decimals(rest, text)
        }
    }
}

/// Appends a word: in decimal if it has eight hex digits, and else as it stands.
fn push_decimal(word: &str, text: &mut String) -> Result<(), AllocError>
    ensures { OnOk result (string_bytes text.new ≡ string_bytes text.old ++ decimal_word word.now) }
{
    match word_value(word) {
        Some(value) => {
            let number = value.cast_signed();
            write!(text, "{number}")
        }
        None => text.push_str(word),
    }
}
