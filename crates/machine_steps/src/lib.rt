//! The machine: processors at their ports, the network, the memory modules, and the machine's steps and runs.
//!
//! A step is a processor's turn, one move of one message through one switch, one service by one module, or a poke.
//! [`Machine::apply`] takes a whole step and returns its outcome (`outcome_of` and `after` of the crate
//! `machine_theory`). `specs/Machines.antt` defines the theory's machine of these parts (`machine_of`) and what holds
//! of every machine (`IsMachine`; [`machine_is_well_formed`]).
//!
//! A machine opens with each processor at the entry of its image, with the local bytes of the layout and all registers
//! 0. The shared words are interleaved over the modules: with `n` modules, word `i` is in module `i % n` at place `i /
//! n` (`specs/Parts.antt`).
//!
//! [`Machine::run`] carries the theorem: from a machine in which no reference is open, after any steps, one serial
//! order of whole instructions explains what the machine did (`IsSerialized`). [`Machine::order`] lists that order: a
//! local instruction or a stop is entered at its turn, and a reference when it is served, together with its group.
//! [`Machine::drain`] brings every open reference to its end. [`Machine::one`] takes one whole instruction, which is a
//! step of the flat machine (`IsOne`). [`Machine::drain_observed`] and [`Machine::one_observed`] show each step to an
//! observer, such as a log. `answers_of` of `specs/Answers.antt` is the list of steps with their outcomes.
//!
//! [`any_runs`] and [`any_is_faulted`] say what the processors are doing, and the functions `flat_..` read the flat
//! machine that a machine's parts make.
#![tactic(auto)]

mod answer_laws;
mod entering;
mod error;
mod flat;
pub mod laws;
mod listing;
mod machine;
mod modules;
mod opening_laws;
mod ports;
mod runs;
mod searching;
mod service;
mod states;
mod turns;

pub use error::NewError;
pub use flat::{
    flat_byte, flat_pc, flat_processors, flat_registers, flat_shared_words, flat_status, flat_word,
};
pub use flat_machine::{Cause, Config, Entry, Fault, Poke, Retired, Status};
pub use machine::Machine;
pub use messages::Seconds;
pub use modules::new_modules;
pub use ports::new_ports;
pub use states::{any_is_faulted, any_runs};
pub use steps::{Outcome, Step};
