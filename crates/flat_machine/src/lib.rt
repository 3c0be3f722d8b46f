//! The flat machine: the model with which a user of the simulator reasons. Processors take whole instructions
//! one at a time, all on one shared memory; there is no message, no queue and no switch.
//!
//! The machine itself is defined in `specs/`: its state (`State.antt`), the arithmetic of words
//! (`Words.antt`), what each instruction does (`Operations.antt`, `Effects.antt`), memory
//! (`Memory.antt`), one processor's turn (`Turns.antt`), and steps and runs of the whole machine
//! (`Flat.antt`). This crate has the types that the definitions share with the code, and laws of
//! the definitions, each the contract of a function that does nothing.
//!
//! Source: The RISC-V Instruction Set Manual, Volume I (Unprivileged ISA). This project defines the
//! environment calls, the faults and the memory map.
#![tactic(auto)]

mod config;
mod effect;
mod event;
mod fault;
pub mod laws;
mod poke;
mod setting;
mod size;

pub use config::{
    CODE_START, Config, LOCAL_START, MAX_COMBINATIONS, MAX_QUEUE_CAPACITY, MAX_SHARED_WORDS,
    MAX_STAGES, MAX_WAIT_RECORDS, MIN_QUEUE_CAPACITY, REGION_BYTES, SHARED_START,
};
pub use effect::{Effect, Region};
pub use event::{Cause, Event, Retired, Status};
pub use fault::Fault;
pub use poke::{Entry, PC, Poke};
pub use setting::Setting;
pub use size::Size;
