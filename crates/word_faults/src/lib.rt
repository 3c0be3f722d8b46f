//! The unknown first word or the wrong operand of a line, and advice on what would be right.
//!
//! These are seen in the line alone ([`Parts`]). [`unknown_word`] advises on a first word, as `specs/FirstWords.antt`
//! defines, and [`wrong_operand`] finds the first operand that is wrong or missing (`specs/WrongOperands.antt`), and
//! advises by the table of operands in `specs/Wants.antt` (`specs/OperandAdvice.antt`).
#![tactic(auto)]

mod cuts;
mod edits;
mod foreign;
mod hint;
mod operands;
mod parts;
mod piece;
mod positions;
mod shape;
mod spot;
mod words;

pub use edits::few_edits;
pub use hint::Hint;
pub use operands::{operand_at, wrong_operand};
pub use parts::Parts;
pub use piece::Piece;
pub use shape::{Shape, Wanted};
pub use spot::Spot;
pub use words::unknown_word;
