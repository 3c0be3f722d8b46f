//! Reading all bytes up to a limit, filling a buffer, and writing a whole text.

ghost use Rattle.std.specs.Prelude.{◌≡◌, ◌≤◌, ◌<◌, ◌↔◌, ◌^◌, true, false, length, is_err, IfOk, IfErr, OnOk, OnErr};
ghost use Rattle.std.specs.Prelude.{IsErrOf, take};
ghost use Rattle.std.specs.Io.KnownBytes.{Appends, Consumes, IsAtEnd};
ghost use Rattle.link.specs.Transfer.{AppendsPart, ConsumesAll, ConsumesLess, StopsFor};

use crate::device::{Failed, LinkRead, LinkWrite};
use std::alloc::Global;
use thiserror::Error;

/// The number of bytes that one read asks for.
pub const PIECE_BYTES: usize = 4096;

/// Why not everything was read.
#[derive(Clone, Copy, Debug, PartialEq, Eq, Drop, Error)]
pub enum ReadError {
    /// The link failed.
    #[error("link")]
    Link,
    /// There was no memory for the bytes.
    #[error("memory")]
    Memory,
    /// The input has more bytes than the limit.
    #[error("too long")]
    TooLong,
}

/// Reads all that the reader has left, if that is at most `limit` bytes. It keeps no more than these, and does not read
/// a longer input to its end.
///
/// # Errors
///
/// [`ReadError::Link`] exactly if the link failed in this call; [`ReadError::TooLong`] only if there were more than
/// `limit` bytes, of which at most [`PIECE_BYTES`] past the limit were read; [`ReadError::Memory`] if there was no
/// memory for the bytes. After `Link` and `Memory`, at most `limit` bytes were taken from the reader.
pub fn read_within<R: LinkRead>(
    alloc: Global,
    reader: &mut R,
    limit: usize,
) -> Result<Vec<u8>, ReadError>
    requires works { R.has_failed reader.old ≡ false }
    requires small { limit < 2 ^ 32 }
    ensures all { IfOk result (λ bytes. ConsumesAll (R.remaining reader.old) (R.remaining reader.new) bytes.items) }
    ensures bound { IfOk result (λ bytes. length bytes.items ≤ limit) }
    ensures link { IsErrOf result ReadError.Link ↔ (R.has_failed reader.new ≡ true) }
    ensures refused { IfErr result (StopsFor limit (R.remaining reader.old) (R.remaining reader.new)) }
{
    let mut bytes = Vec::new(alloc);
    let mut piece = [0u8; PIECE_BYTES];
    loop {
        let count = match reader.receive(&mut piece) {
            Ok(0) => return Ok(bytes),
            Ok(count) => count,
            Err(Failed) => return Err(ReadError::Link),
        };
        if limit - bytes.len() < count {
            return Err(ReadError::TooLong);
        }
        if bytes.extend_from_slice(&piece[..count]).is_err() {
            return Err(ReadError::Memory);
        }
    }
}

/// Fills the buffer, or as much of it as the reader has bytes for. Returns the number of bytes.
///
/// # Errors
///
/// [`Failed`] exactly if the link failed in this call. Then the buffer is not full.
pub fn fill<R: LinkRead>(reader: &mut R, buf: &mut [u8]) -> Result<usize, Failed>
    requires { R.has_failed reader.old ≡ false }
    ensures failed { R.has_failed reader.new ≡ is_err result }
    ensures bound { IfOk result (λ count. count ≤ length buf.new) }
    ensures bytes { IfOk result (λ count. Consumes (R.remaining reader.old) (R.remaining reader.new)
        (take count buf.new)) }
    ensures short { IfOk result (λ count. count < length buf.new → IsAtEnd (R.remaining reader.new)) }
    ensures err { OnErr result (ConsumesLess (length buf.old) (R.remaining reader.old) (R.remaining reader.new)) }
{
    let mut count = 0;
    while count < buf.len() {
        let more = reader.receive(&mut buf[count..])?;
        if more == 0 {
            return Ok(count);
        }
        count += more;
    }
    Ok(count)
}

/// Writes the whole text.
///
/// # Errors
///
/// [`Failed`] exactly if the link failed in this call. Then a beginning of the text was written, and not all of it.
pub fn write_whole<W: LinkWrite>(writer: &mut W, text: &[u8]) -> Result<(), Failed>
    requires { W.has_failed writer.old ≡ false }
    ensures failed { W.has_failed writer.new ≡ is_err result }
    ensures ok { OnOk result (Appends (W.contents writer.old) (W.contents writer.new) text.now) }
    ensures err { OnErr result (AppendsPart (W.contents writer.old) (W.contents writer.new) text.now) }
{
    let mut rest = text;
    while !rest.is_empty() {
        let count = writer.send(rest)?;
        rest = &rest[count..];
    }
    Ok(())
}
