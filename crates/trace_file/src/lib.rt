//! Traces: the steps that a machine has taken, as a file.
//!
//! A trace has one spelling: a header with the sizes of the network and the number of steps, followed by a record of 12
//! bytes for each step. [`write_trace`] writes it. [`read_trace`] reads it and refuses everything else, with the first
//! fault in the order of the bytes. `specs/` defines which bytes spell a trace, and which fault is where, by the bytes
//! that are written: there is no second definition for reading. The laws say that bytes spell at most one trace, that
//! bytes which spell none have a fault, and that they have only one.
//!
//! The format is this project's own.
#![tactic(auto)]

mod error;
mod fields;
mod header;
pub mod laws;
mod read;
mod trace;
mod write;

pub use error::TraceError;
pub use read::read_trace;
pub use trace::Trace;
pub use write::{is_trace, write_trace};
