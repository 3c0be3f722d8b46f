//! The lines of a debugger's stream: where they end, however the bytes are cut into pieces, and which command a line
//! asks for.
//!
//! `specs/Lines.antt` says which events a stream stands for, `specs/Commands.antt` which command a line spells.
//! No call allocates memory.
#![tactic(auto)]

mod command;
pub mod laws;
mod number;
mod reader;
mod word;
mod written;

pub use command::Command;
pub use reader::{Event, Line, LineReader, MAX_LINE, pack};
pub use written::Written;
