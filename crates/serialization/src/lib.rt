//! Serialization: the machine is the flat machine that takes one serial order of whole instructions.
//!
//! All of this holds for any kind of processor. `specs/Program.antt` says what is known of one: whether its next turn
//! needs a shared word, and if so, which one, and what becomes of the word and of the processor. A core may be a
//! processor together with the list of its events; then the theorem speaks of events too.
//!
//! `specs/Machine.antt` defines the machine and its steps, over the moves of the network. `specs/Steadiness.antt` says
//! what holds of a machine at every moment, and `specs/Draining.antt` which step a drain takes next. `specs/Order.antt`
//! reads the serial order off the outcomes of steps, and defines the flat machine, which has no messages.
//! `specs/Serialization.antt` relates the machine to the flat machine: at every moment, and when no reference is open.
//! The proof keeps `specs/Simulation.antt` from step to step.
//!
//! The crate has no code that runs. Its theorems are the contracts of functions that do nothing.
#![tactic(auto)]

pub mod laws;
mod machine_laws;
