//! Course texts: the pseudo-instructions, forms and directives of RISC-V textbooks, as plain texts.
//!
//! [`course_text`] rewrites a course text to the plain grammar of `asm_lines`, line for line. `specs/Course.antt`
//! defines the plain text, `specs/Table.antt` has the words of course texts beside their plain lines, and
//! `specs/Forms.antt` further forms of plain instructions. A line that the plain grammar reads stays as it is, unless
//! it names a constant; so a plain text is its own plain text ([`laws::plain_texts_stay`]). A line that is wrong gives
//! a plain line that is wrong in the same way, and [`CourseText::origins`] says on which line of the course text.
#![tactic(auto)]

mod bytes;
mod constants;
mod definitions;
mod fences;
mod forms;
pub mod laws;
mod numbers;
mod parts;
mod place;
mod plain;
mod rewriting;
mod table;
mod templates;
mod text;

pub use parts::{Parts, first_column};
pub use text::{CourseText, MAX_PLAIN_BYTES, course_text};
