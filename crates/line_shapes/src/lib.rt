//! Shapes of printed lines, and what a line that has one says.
//!
//! A line has one of the shapes of its command ([`shapes`]): words, and fields between them ([`Part`]). By the first of
//! these shapes that it has ([`shape_of`]), a line is cut into its parts ([`first_cut`]; `specs/Parts.antt`), and its
//! object in JSON has a member for each field ([`object_text`]; `specs/Shapes.antt`).
#![tactic(auto)]

mod cuts;
mod fields;
mod numbers;
mod objects;
mod parts;
mod shape;
pub mod shapes;

pub use cuts::{after, first_word, upto};
pub use numbers::{decimal_value, word_value};
pub use objects::object_text;
pub use parts::{first_cut, shape_of};
pub use shape::{Kind, Part, Shape};
