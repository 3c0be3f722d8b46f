//! `ultra trace` and `ultra steps`: a trace as a text, and back.
//!
//! The text of a trace has a line for the sizes of the network and one for each step, as `ultra story` prints steps
//! (`specs/Texts.antt`). [`text_command`] prints it. [`steps_command`] reads a text, which may be written by hand, and
//! writes the trace that it says: `specs/Words.antt` defines the words of a line, and `specs/Steps.antt` which step
//! they say, which trace a text says ([`trace_in`]), and its first mistake. By a law
//! ([`texts_are_read_back`](laws::texts_are_read_back)) the text of a trace says that trace.
#![tactic(auto)]

mod fault;
mod from_text;
mod input;
pub mod laws;
mod numbers;
mod read;
mod refusal;
mod schedule;
mod size_words;
mod step_words;
mod text;
mod to_text;
mod words;

pub use fault::{Mistake, TextError, TextFault};
pub use from_text::steps_command;
pub use input::MAX_TEXT_BYTES;
pub use read::trace_in;
pub use refusal::Refusal;
pub use schedule::Schedule;
pub use text::text_of_trace;
pub use to_text::text_command;
