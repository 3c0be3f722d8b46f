//! The fault of a line at its place in a text, as `assemble` reports it, the word at fault, and advice on what would be
//! right.
//!
//! A [`Cursor`] keeps what matters of the lines before, and can also pass lines that have a fault. `specs/Places.antt`
//! defines what a cursor means, `specs/Faults.antt` which fault a line has, `specs/WordAtFault.antt` which word is at
//! fault, and `specs/AdviceAtFault.antt` what is advised. For an unknown first word and a wrong operand it is what
//! `word_faults` advises; otherwise it depends on the line's place and on the labels of the text.
#![tactic(auto)]

mod cursor;
mod labels;
mod places;
mod spot;
mod values;

pub use cursor::Cursor;
pub use labels::{Label, Search};
pub use spot::{Around, spot_of};
pub use word_faults::{Hint, Piece, Spot, Wanted};
