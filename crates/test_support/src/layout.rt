//! What a layout places, as a text.

ghost use Rattle.std.specs.Prelude.{◌<◌};

use elf_image::Layout;
use std::alloc::{AllocError, Global};
use std::fmt::Write;

/// The text of what a layout places: the words of code, the bytes of local and of shared memory if there are any, and
/// the entry if it is not 0x00010000. All are hex digits, with `*N` after a word or a byte that comes N times in a row.
///
/// # Errors
///
/// [`AllocError`] if there is no memory for the text.
pub fn layout_text(alloc: Global, layout: &Layout) -> Result<String, AllocError> {
    let mut text = String::new(alloc);
    push_runs(&mut text, 4, layout.code.as_slice())?;
    push_section(&mut text, "local ", layout.local.as_slice())?;
    push_section(&mut text, "shared ", layout.shared.as_slice())?;
    if layout.entry != 0x0001_0000 {
        write!(text, "entry {:08x} ", layout.entry)?;
    }
    // The blank at the end.
    let _ = text.pop();
    Ok(text)
}

/// Appends the bytes of a section, if there are any.
fn push_section(text: &mut String, name: &str, bytes: &[u8]) -> Result<(), AllocError> {
    if bytes.is_empty() {
        return Ok(());
    }
    text.push_str(name)?;
    push_runs(text, 1, bytes)
}

/// Appends pieces of this many bytes, equal ones in a row once.
fn push_runs(text: &mut String, size: usize, bytes: &[u8]) -> Result<(), AllocError>
    requires { 0 < size }
{
    let mut last = &bytes[..0];
    let mut count = 0u32;
    for piece in bytes.chunks(size) {
        if piece != last {
            push_run(text, last, count)?;
            count = 0;
        }
        last = piece;
        count = count.saturating_add(1);
    }
    push_run(text, last, count)
}

/// Appends a piece that comes this many times, its highest byte first.
fn push_run(text: &mut String, piece: &[u8], count: u32) -> Result<(), AllocError> {
    for byte in piece.iter().rev() {
        write!(text, "{byte:02x}")?;
    }
    match count {
        0 => Ok(()),
        1 => text.push(' '),
        _ => write!(text, "*{count} "),
    }
}
