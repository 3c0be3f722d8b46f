//! The bytes that processors send to the console while they run in threads of their own.
//!
//! Each processor's bytes go through a queue of 256 bytes, from its [`Sender`] to the one [`Monitor`] ([`console`]).
//! A sender whose queue is full keeps its byte ([`Sender::put`]), so none is lost: what the monitor took from a
//! processor, followed by what [`Monitor::finish`] finds in its queue, is what that processor sent, in order.
#![tactic(auto)]

mod ends;
mod monitor;
mod queue;
mod refusal;

pub use monitor::{End, Monitor, console};
pub use queue::{CAPACITY, Sender};
pub use refusal::ConsoleRefusal;
