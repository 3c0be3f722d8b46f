//! A writer that passes on lines in a format.

ghost use Rattle.std.specs.Prelude.{◌≡◌, ◌==◌, [], IfOk, None, OnOk, position, take};
ghost use Rattle.std.specs.Io.{WritesAtMost};
ghost use Rattle.std.specs.Io.KnownBytes.{Appends, WriteAppends};
ghost use Rattle.line_formats.specs.Lines.{Feeds};

use crate::format::LineFormat;
use std::alloc::Global;
use std::io::{self, ErrorKind, Write};

/// A writer that passes on, for each line written to it, what its format prints for the line. It keeps a line that has
/// not ended, and writes nothing of it.
#[derive(Drop)]
pub struct FormattedLines<F: LineFormat, W: Write> {
    /// Where the lines go.
    pub device: W,
    /// The format of lines.
    pub format: F,
    /// The bytes after the last line feed.
    pub kept: Vec<u8>,
    alloc: Global,
}

impl<F: LineFormat, W: Write> FormattedLines<F, W> {
    /// A writer to the device, to which no byte has been written.
    pub fn new(alloc: Global, format: F, device: W) -> Self
        ensures device { result.device ≡ device }
        ensures format { result.format ≡ format }
        ensures kept { result.kept.items ≡ [] }
    {
        FormattedLines {
            device,
            format,
            kept: Vec::new(alloc),
            alloc,
        }
    }

    /// Passes on the line that is kept.
    fn end_line(&mut self) -> io::Result<()>
        ensures text { OnOk result ((self.new.kept.items ≡ []) × Appends (W.contents self.old.device)
            (W.contents self.new.device) (F.text self.old.format self.old.kept.items)) }
        ensures format { self.new.format ≡ self.old.format }
    {
        let text = match str::from_utf8(self.kept.as_slice()) {
            Ok(line) => self.format.text(self.alloc, line)?,
            Err(_) => return Err(ErrorKind::InvalidData.into()),
        };
        self.device.write_all(text.as_slice())?;
        self.kept.clear();
        Ok(())
    }
}

/// The place of the first line feed, if there is one.
fn line_end(bytes: &[u8]) -> Option<usize>
    ensures { result ≡ position (λ b. b == 10) bytes.now }
{
    bytes.iter().position(|b| *b == 10)
}

impl<F: LineFormat, W: Write> Write for FormattedLines<F, W> {
    /// Takes the bytes through the first line feed, or all if there is none.
    ///
    /// # Errors
    ///
    /// Those of the device; `OutOfMemory`; and `InvalidData` if a line is not UTF-8.
    fn write(&mut self, buf: &[u8]) -> io::Result<usize>
        ensures bound { WritesAtMost result buf.now }

        // The bytes kept and those taken make lines, whose texts are appended, and a rest, which is kept.
        ensures lines { IfOk result (λ count.
            Feeds (F.text self.old.format) self.old.kept.items (take count buf.now) self.new.kept.items
            (Appends (W.contents self.old.device) (W.contents self.new.device))) }
        ensures format { self.new.format ≡ self.old.format }

        // The device gets other bytes than those written, so which bytes the writer holds is not known.
        ensures bytes { WriteAppends None None result buf.now }
    {
        match line_end(buf) {
            Some(at) => {
                self.kept.extend_from_slice(&buf[..at])?;
                self.end_line()?;
                Ok(at + 1)
            }
            None => {
                self.kept.extend_from_slice(buf)?;
                Ok(buf.len())
            }
        }
    }

    fn flush(&mut self) -> io::Result<()> {
        self.device.flush()
    }
}
