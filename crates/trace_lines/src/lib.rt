//! The lines of a serial order and of a story.
//!
//! `specs/OrderLines.antt` defines the line of an entry of a serial order as a function of the flat machine before it
//! (`line_of`). This crate makes the parts of such a line: the word that an instruction acts on
//! ([`word_of_instruction`]), and the texts ([`push_turn`], [`push_poke`]).
//!
//! `specs/StoryLines.antt` defines the line of a step (`line_of`), read off the step, its outcome, the values that it
//! tells and the groups of combined requests, and the lines of a run (`story_of`). [`push_line`] appends one line.
#![tactic(auto)]

mod choice;
mod concern;
mod functions;
pub mod laws;
mod lines;
mod order_laws;
mod reference;
mod story;
mod story_laws;
mod subject;
mod texts;
mod unknown;
mod value_texts;
mod values;
mod words;

pub use choice::Choice;
pub use concern::{concerns, leader_after};
pub use functions::push_function;
pub use lines::{push_line, push_step};
pub use reference::Reference;
pub use story::StoryLines;
pub use subject::Subject;
pub use texts::{push_event, push_owner, push_poke, push_turn, push_written};
pub use unknown::Unknown;
pub use values::Values;
pub use words::{processor_of_poke, word_of_instruction, word_of_poke};
