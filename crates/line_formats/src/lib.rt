//! The formats in which lines that commands print can go out.
//!
//! A format ([`LineFormat`]) says what is printed for a line, by the first of its command's shapes ([`shapes`]) that
//! the line has:
//!
//! - [`Json`]: the object of the line, with its kind and then its fields, in the order of the line. A line that has
//!   none of the shapes is an object too, of kind `text`, so that no line is lost (`Shapes` of `line_shapes`).
//! - [`Csv`]: a row for each number of the line (`specs/Csv.antt`).
//! - [`Names`]: the line, and after each address and each number of a shared word the name of the place, from a table
//!   ([`Places`]; `specs/Names.antt`). Instructions can have registers by the names of their use, and the addresses to
//!   which they jump (`specs/Instructions.antt`).
//!
//! [`FormattedLines`] is a writer that passes on, for each line that is written to it, what a format prints for it.
//! [`Format`] is a format that is chosen while the program runs.
#![tactic(auto)]

mod csv;
mod decimals;
mod format;
mod instructions;
pub mod laws;
mod lines;
mod names;
mod places;
mod symbols;

pub use csv::Csv;
pub use format::{Format, Json, LineFormat};
pub use line_shapes::{Kind, Part, Shape, shapes};
pub use lines::FormattedLines;
pub use names::Names;
pub use places::Places;
