//! What a second line of a report names: the file or stream at fault, and the system's error.

use crate::files::STANDARD;
use std::fmt::{self, Display};
use std::io::{self, Write};

/// What is at fault.
#[derive(Clone, Copy, Debug, PartialEq, Eq, Drop)]
pub enum Place<'a> {
    /// The file at this path, or standard input.
    File(&'a str),
    /// The file at this path, whose name is that of a text, where an image is wanted.
    Text(&'a str),
    Port(u16),
    StandardOutput,
    /// Standard input and output, between which a session's error does not tell.
    StandardStreams,
    /// The budget of a run that is not reported. Its line says by which option it is.
    Budget,
}

impl Display for Place<'_> {
    fn fmt<W: fmt::Write>(&self, f: &mut fmt::Formatter<W>) -> fmt::Result {
        match self {
            Place::File(path) if *path == STANDARD => write!(f, "standard input"),
            Place::File(path) => write!(f, "{path}"),
            Place::Text(path) => write!(
                f,
                "{path}: a text, which `ultra asm {path} OUT` makes an image"
            ),
            Place::Port(number) => write!(f, "port {number}"),
            Place::StandardOutput => write!(f, "standard output"),
            Place::StandardStreams => write!(f, "standard input or output"),
            Place::Budget => write!(f, "--unfinished prints where the processors stand"),
        }
    }
}

/// Reports in a second line what is at fault, with the system's error if there is one.
pub fn report_place<E: Write>(place: Place<'_>, reason: Option<io::Error>, err: &mut E) {
    // If standard error fails, the exit status alone reports the fault.
    let _ = match reason {
        Some(error) => writeln!(err, "  {place}: {error}"),
        None => writeln!(err, "  {place}"),
    };
}

/// The same place, said to be a text if its name is that of one.
pub fn text_or_place(place: Place<'_>) -> Place<'_> {
    match place {
        Place::File(path) if path.ends_with(".s") => Place::Text(path),
        _ => place,
    }
}
