//! The text that `steps` reads.

ghost use Rattle.std.specs.Prelude.{◌≡◌, ◌↔◌, true, false, IfOk, IfErr, IsErrOf};
ghost use Rattle.command_io.specs.Files.{IsWhole};
ghost use Rattle.trace_text.specs.Commands.{IsUnread};

use crate::refusal::Refusal;
use command_io::Fault;
use link::{LinkRead, ReadError, read_within};
use std::alloc::Global;

/// The most bytes of a text. The text of a trace of 4,194,304 steps needs less than half of them. The limit keeps an
/// endless input from taking all memory.
pub const MAX_TEXT_BYTES: usize = 268_435_456;

/// The bytes of a file.
///
/// # Errors
///
/// [`Fault::Link`] exactly if a read fails, [`Refusal::TooLong`] if the file has more than [`MAX_TEXT_BYTES`], and
/// [`Fault::Memory`].
pub(crate) fn read_text<R: LinkRead>(alloc: Global, file: &mut R) -> Result<Vec<u8>, Refusal>
    requires works { R.has_failed file.old ≡ false }
    ensures read { IfOk result (λ text. IsWhole (R.remaining file.old) text.items) }
    ensures unread { IfErr result (IsUnread (R.remaining file.old)) }
    ensures link { IsErrOf result (Refusal.Fault Fault.Link) ↔ (R.has_failed file.new ≡ true) }
{
    match read_within(alloc, file, MAX_TEXT_BYTES) {
        Ok(text) => Ok(text),
        Err(ReadError::Link) => Err(Refusal::Fault(Fault::Link)),
        Err(ReadError::Memory) => Err(Refusal::Fault(Fault::Memory)),
        Err(ReadError::TooLong) => Err(Refusal::TooLong),
    }
}
