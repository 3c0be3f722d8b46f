//! All faults of an assembler text, and the lines that list them.
//!
//! [`text_faults`] finds for each line with a fault its number, the word at fault with its column, the fault as
//! `assemble` knows it, and what would be right. [`list_of`] makes the lines that `ultra check` prints.
//!
//! A line has at most one fault, as `specs/Meaning.antt` of `assembler` says. Each line is read at its place, after all
//! lines before it, also those with a fault, and labels have their values from the whole text. So a line that is not
//! listed may have a fault after another line is mended, and the other way round. A line that cannot be read takes no
//! bytes and has no label. Any other line takes its bytes and has its label, even if it has a fault. If two lines have
//! the same label, the later one counts. If a section has too many bytes, no statement after that has room.
//!
//! `specs/Faults.antt` says what is listed, and which word of the line is named. `specs/Advice.antt` has the texts of
//! what would be right.
#![tactic(auto)]

mod advice;
mod fault_lines;
mod faults;
pub mod laws;
mod text_fault;
mod words;

pub use fault_lines::list_of;
pub use faults::{end_place, text_faults};
pub use text_fault::TextFault;
pub use words::push_shown;
