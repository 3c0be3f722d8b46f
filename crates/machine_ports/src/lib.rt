//! The ports of a machine. A port has one processor's core, and knows whether the processor has an open reference.
//!
//! A port without an open reference begins a turn: an instruction retires or stops the processor, or it refers to a
//! shared word. A reference opens the port, until the port finishes the turn with the word that the reference found. In
//! between nothing of the processor changes.
//!
//! The flat machine defines what a turn does (`flat_machine`, `specs/Turns.antt`). A law, the contract of a function
//! that does nothing, says that the function of a reference means the turn's change of the word. Only the call that
//! makes a port allocates memory.
#![tactic(auto)]

mod begun;
pub mod laws;
mod port;

pub use begun::Begun;
pub use port::Port;
