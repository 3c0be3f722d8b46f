//! One processor's core: its registers, its local memory, and what its next instruction does.
//!
//! [`Core::decide`] says what the next turn is. [`Core::take_local`] takes a turn that needs only the core itself. A
//! turn that acts on a shared word is a [`Decision::Refer`]: the word's number, and the function to apply to its value.
//! Whoever has the word applies the function, and then [`Core::retire`] takes the word's old value. The core does not
//! change in between. [`Core::stop`] records why the processor stopped. [`Core::take`] decides and takes in one call.
//! The flat machine defines what a turn does (`flat_machine`, `specs/Turns.antt`).
//!
//! `instructions` gives the function of each load, store and AMO of a shared word: fetch-and-phi. `specs/Table.antt`
//! is the same as a table.
//!
//! [`run_local`] runs many local instructions on a core that is away from its machine. It lists what retired in a
//! buffer allocated beforehand ([`Retirements`]). A law shows that these are turns of the flat machine
//! ([`local_runs_are_turns`]).
//!
//! [`Core::save`] saves a core in as much memory as it needs ([`SavedCore`]). A core itself has room for all of its
//! local memory.
//!
//! A core holds no shared word. Only [`Core::new`], [`Core::copy`], [`Core::save`], [`SavedCore::restore`] and
//! [`Retirements::new`] allocate memory.
//!
//! Source: The RISC-V Instruction Set Manual, Volume I (Unprivileged ISA), "Load and Store Instructions" and "Atomic
//! Memory Operations".
#![tactic(auto)]

mod context;
mod decision;
mod function_laws;
mod instructions;
pub mod laws;
mod processor;
mod retirements;
mod run;
mod run_laws;
mod saved;

pub use decision::{Decision, Shape, Taken};
pub use flat_machine::{Cause, Fault, Retired, Setting, Status};
pub use instructions::{
    amo, amo_add, amo_and, amo_max, amo_maxu, amo_min, amo_minu, amo_or, amo_swap, amo_xor, load,
    store, store_byte, store_half, store_word,
};
pub use processor::Core;
pub use retirements::Retirements;
pub use run::{LocalEnd, run_local};
pub use saved::SavedCore;
