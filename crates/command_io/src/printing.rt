//! Prints a complete text, and writes to standard error.

ghost use Rattle.std.specs.Prelude.{◌≡◌, true, false, is_err, IfErr, OnOk};
ghost use Rattle.std.specs.Io.KnownBytes.{Appends};
ghost use Rattle.link.specs.Transfer.{AppendsPart};
ghost use Rattle.command_io.specs.FaultTexts.{AppendsOrPart, joined};

use crate::fault::Fault;
use link::{Failed, LinkWrite, write_whole};
use std::io::Write;

/// Prints a text.
///
/// # Errors
///
/// [`Fault::Link`] exactly if the link failed in this call. Then it has printed a beginning of the text, and not all of
/// it.
pub fn print<W: LinkWrite>(out: &mut W, text: &str) -> Result<(), Fault>
    requires { W.has_failed out.old ≡ false }
    ensures failed { W.has_failed out.new ≡ is_err result }
    ensures printed { OnOk result (Appends (W.contents out.old) (W.contents out.new) text.now) }
    ensures begun { IfErr result (λ fault. (fault ≡ Fault.Link)
        × AppendsPart (W.contents out.old) (W.contents out.new) text.now) }
{
    match write_whole(out, text.as_bytes()) {
        Ok(()) => Ok(()),
        Err(Failed) => Err(Fault::Link),
    }
}

/// Writes a text to standard error. If a write fails, a beginning of the text is written, and no error is reported.
pub fn write_error<E: Write>(text: &str, err: &mut E)
    ensures { AppendsOrPart (E.contents err.old) (E.contents err.new) text.now }
{
    is_written(text, err);
}

/// Writes these texts to standard error, one after another. If a write fails, a beginning of them is written, and no
/// error is reported.
pub fn write_error_parts<E: Write>(parts: &[&str], err: &mut E)
    ensures { AppendsOrPart (E.contents err.old) (E.contents err.new) (joined parts.now) }
{
    for part in parts {
        if !is_written(part, err) {
            return;
        }
    }
}

/// Writes a text, and returns whether all of it was written. If not, a beginning of it may be written.
fn is_written<E: Write>(text: &str, err: &mut E) -> bool
    ensures whole { result ≡ true → Appends (E.contents err.old) (E.contents err.new) text.now }
    ensures part { AppendsOrPart (E.contents err.old) (E.contents err.new) text.now }
{
    let mut rest = text.as_bytes();
    while !rest.is_empty() {
        match err.write(rest) {
            Ok(count) if 0 < count => rest = &rest[count..],
            _ => return false,
        }
    }
    true
}
