//! The text of a file.

ghost use Rattle.std.specs.Prelude.{◌≡◌, ◌↔◌, true, false, IfOk, IfErr, IsErrOf};
ghost use Rattle.std.specs.Str.{IsUtf8};
ghost use Rattle.command_io.specs.Files.{IsWhole};
ghost use Rattle.asm_commands.specs.Assembling.{IsUnread};

use command_io::Fault;
use link::{LinkRead, ReadError, read_within};
use std::alloc::Global;

/// The most bytes of a text. A text that fills every section of an image needs less than half of them. The limit keeps
/// an endless input from taking all memory.
pub const MAX_TEXT_BYTES: usize = 16_777_216;

/// The bytes of a file.
///
/// # Errors
///
/// [`Fault::Link`] exactly if a read fails, and [`Fault::Memory`] if there is no memory or the file has more than
/// [`MAX_TEXT_BYTES`].
pub fn read_text<R: LinkRead>(alloc: Global, file: &mut R) -> Result<Vec<u8>, Fault>
    requires works { R.has_failed file.old ≡ false }
    ensures read { IfOk result (λ text. IsWhole (R.remaining file.old) text.items) }
    ensures unread { IfErr result IsUnread }
    ensures link { IsErrOf result Fault.Link ↔ (R.has_failed file.new ≡ true) }
{
    match read_within(alloc, file, MAX_TEXT_BYTES) {
        Ok(text) => Ok(text),
        Err(ReadError::Link) => Err(Fault::Link),
        Err(ReadError::Memory | ReadError::TooLong) => Err(Fault::Memory),
    }
}

/// The text that bytes spell.
///
/// # Errors
///
/// [`Fault::NotUtf8`] if the bytes are not UTF-8.
pub fn text_of(bytes: &[u8]) -> Result<&str, Fault>
    ensures text { IfOk result (λ text. text.now ≡ bytes.now) }
    ensures refused { IfErr result (λ fault. (fault ≡ Fault.NotUtf8) × (¬ (IsUtf8 bytes.now))) }
{
    match str::from_utf8(bytes) {
        Ok(text) => Ok(text),
        Err(_) => Err(Fault::NotUtf8),
    }
}
