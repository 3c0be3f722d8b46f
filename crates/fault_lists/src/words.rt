//! Words of a text, as they are printed.

ghost use Rattle.std.specs.Prelude.{◌≡◌, ◌++◌, OnOk, string_bytes};
ghost use Rattle.std.specs.List.{flat_map};
ghost use Rattle.fault_lists.specs.Words.{after_code, shown_byte, shown};

use command_io::push_bytes;
use std::alloc::{AllocError, Global};

/// The most bytes of a word that are printed.
const MAX_SHOWN: usize = 64;

/// Appends a blank and the word, if there is one.
pub fn push_after_code(alloc: Global, text: &mut String, word: &[u8]) -> Result<(), AllocError>
    ensures { OnOk result (string_bytes text.new ≡ string_bytes text.old ++ after_code word.now) }
{
    if word.is_empty() {
        return Ok(());
    }
    text.push(' ')?;
    push_word(alloc, text, word)
}

/// Appends a word: its first bytes, and two dots if there are more.
pub fn push_word(alloc: Global, text: &mut String, word: &[u8]) -> Result<(), AllocError>
    ensures { OnOk result (string_bytes text.new ≡ string_bytes text.old ++ shown word.now) }
{
    if word.len() <= MAX_SHOWN {
        return push_shown(alloc, text, word);
    }
    push_shown(alloc, text, word.split_at(MAX_SHOWN).0)?;
    text.push_str("..")
}

/// Appends each byte of a word.
pub fn push_shown(alloc: Global, text: &mut String, word: &[u8]) -> Result<(), AllocError>
    ensures { OnOk result (string_bytes text.new ≡ string_bytes text.old ++ flat_map shown_byte word.now) }
{
    for byte in word {
        push_byte(alloc, text, *byte)?;
    }
    Ok(())
}

/// Appends a byte: printable ASCII, blanks included, as it is, and any other as `\xHH`.
fn push_byte(alloc: Global, text: &mut String, byte: u8) -> Result<(), AllocError>
    ensures { OnOk result (string_bytes text.new ≡ string_bytes text.old ++ shown_byte byte) }
{
    if (32..127).contains(&byte) {
        return text.push(char::from(byte));
    }
    text.push_str("\\x")?;
    push_bytes(alloc, text, &[byte])
}
