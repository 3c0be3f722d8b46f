//! Numbers, bytes and statuses as they are printed.

ghost use Rattle.std.specs.Prelude.{◌≡◌, ◌++◌, codes, OnOk, string_bytes};
ghost use Rattle.std.specs.Fmt.{decimal};
ghost use Rattle.hex.specs.Hex.{encode_lower};
ghost use Rattle.command_io.specs.Digits.{hex_of_bytes, hex_of_word, status_text};

use flat_machine::Status;
use std::alloc::{AllocError, Global};
use std::fmt::Write;

/// Appends each byte as two lower-case hex digits.
///
/// # Errors
///
/// [`AllocError`] if there is no memory for them.
pub fn push_bytes(alloc: Global, text: &mut String, bytes: &[u8]) -> Result<(), AllocError>
    ensures { OnOk result (string_bytes text.new ≡ string_bytes text.old ++ hex_of_bytes bytes.now) }
{
    let digits = hex::encode(alloc, bytes)?;
    text.push_str(digits.as_str())
}

/// Appends a word as eight lower-case hex digits, most significant first.
///
/// # Errors
///
/// [`AllocError`] if there is no memory for them.
pub fn push_word(alloc: Global, text: &mut String, word: u32) -> Result<(), AllocError>
    ensures { OnOk result (string_bytes text.new ≡ string_bytes text.old ++ hex_of_word word) }
{
    push_bytes(alloc, text, &word.to_be_bytes())
}

/// Appends the status of a processor: `run`, `halt HH` or `fault N`.
///
/// # Errors
///
/// [`AllocError`] if there is no memory for it.
pub fn push_status(alloc: Global, text: &mut String, status: Status) -> Result<(), AllocError>
    ensures { OnOk result (string_bytes text.new ≡ string_bytes text.old ++ status_text status) }
{
    match status {
        Status::Running => text.push_str("run"),
        Status::Halted(byte) => {
            text.push_str("halt ")?;
            push_bytes(alloc, text, &[byte])?;
            Ok(())
        }
        Status::Faulted(fault) => {
            let number = fault.number();
            write!(text, "fault {number}")
        }
    }
}
