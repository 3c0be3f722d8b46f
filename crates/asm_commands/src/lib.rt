//! `ultra asm`, `ultra check` and `ultra dis`.
//!
//! [`asm_command`] goes from the bytes of a text to the bytes of an image. [`dis_command`] goes from the bytes of an
//! image to the lines of its code. [`check_command`] goes from the bytes of a text to the list of all its faults (crate
//! `fault_lists`).
//!
//! [`course_asm_command`] and [`course_check_command`] do the same with the plain text of a course text
//! (`specs/Courses.antt`), with faults on the lines of the course text.
//!
//! [`symbol_map`] makes a list of the labels of a text, in the form of symbols that `nm` prints
//! (`specs/SymbolMaps.antt`).
#![tactic(auto)]

mod asm;
mod check;
mod code_lines;
mod course_asm;
mod course_check;
mod course_faults;
mod dis;
mod input;
mod origins;
mod symbols;
mod text_label;

pub use asm::asm_command;
pub use check::check_command;
pub use code_lines::listing;
pub use course_asm::course_asm_command;
pub use course_check::course_check_command;
pub use dis::dis_command;
pub use input::{MAX_TEXT_BYTES, read_text, text_of};
pub use symbols::{course_symbol_map, symbol_map, text_labels};
pub use text_label::TextLabel;
