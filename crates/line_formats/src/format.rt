//! Formats in which lines can go out.

ghost use Rattle.std.specs.Prelude.{◌≡◌, ◌++◌, ◌∷◌, [], IfOk};
ghost use Rattle.line_formats.specs.Formats.{with_line_feed};

use crate::csv::Csv;
use crate::names::Names;
use crate::places::Places;
use line_shapes::{Shape, object_text};
use std::alloc::{AllocError, Global};

/// A format of lines.
pub trait LineFormat {
    ghost use Rattle.std.specs.Prelude.{ℕ, List};

    /// What is printed for a line, with its line feeds.
    ghost text: { Self → (line : List ℕ) → List ℕ };

    /// What is printed for a line, in UTF-8.
    ///
    /// # Errors
    ///
    /// [`AllocError`] if there is no memory for it.
    fn text(&self, alloc: Global, line: &str) -> Result<Vec<u8>, AllocError>
        ensures { IfOk result (λ b. b.items ≡ Self.text self.now line.now) };
}

/// The format that prints the object of each line, by these shapes.
#[derive(Clone, Copy, Drop)]
pub struct Json<'a>(pub &'a [Shape]);

impl LineFormat for Json<'_> {
    ghost use Rattle.line_formats.specs.Formats.{with_line_feed};
    ghost use Rattle.line_shapes.specs.Shapes.{object_text};

    ghost text = { λ json line. with_line_feed (object_text json.0.now line) };

    fn text(&self, alloc: Global, line: &str) -> Result<Vec<u8>, AllocError> {
        let mut object = object_text(alloc, self.0, line)?;
        object.push(10)?;
        Ok(object)
    }
}

/// A format that is chosen while the program runs.
#[derive(Drop)]
pub enum Format<P> {
    /// Each line as it is.
    Plain,
    /// The object of each line ([`Json`]).
    Json(&'static [Shape]),
    /// The numbers of each line as rows ([`Csv`]).
    Csv(&'static [Shape]),
    /// Each line with the names of its addresses.
    Named(Names<'static, P>),
}

impl<P: Places> LineFormat for Format<P> {
    ghost use Rattle.line_formats.specs.Formats.{format_text};

    ghost text = { format_text P.place };

    fn text(&self, alloc: Global, line: &str) -> Result<Vec<u8>, AllocError> {
        match self {
            Format::Plain => plain_text(alloc, line),
            Format::Json(shapes) => Json(shapes).text(alloc, line),
            Format::Csv(shapes) => Csv(shapes).text(alloc, line),
            Format::Named(names) => names.text(alloc, line),
        }
    }
}

/// The line and a line feed.
fn plain_text(alloc: Global, line: &str) -> Result<Vec<u8>, AllocError>
    ensures { IfOk result (λ b. b.items ≡ with_line_feed line.now) }
{
    let mut text = Vec::new(alloc);
    text.extend_from_slice(line.as_bytes())?;
    text.push(10)?;
    Ok(text)
}
