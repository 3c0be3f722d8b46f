//! What processors do alone, and sets of states between references.
//!
//! What a processor does between two references to shared words touches nothing that another one sees. So a state is
//! each processor at its next reference, or stopped, with what it has printed, and the shared words; and only
//! references lead from one state to another (`specs/Closing.antt`). The laws say that no order of turns ends anywhere
//! else. A processor may also *spin*: go on alone for ever, as does one that comes back to a state in which it was.
//! Then no order of turns ends, so nothing need be known of what the others do. If processors are alike, one state is
//! enough for all those that are exchanges of one another (`specs/Exchanging.antt`). What is left at an end is a result
//! (`specs/Results.antt`).
//!
//! A register is *live* at an instruction if that instruction, or one after it, may read the register before it is
//! written. A table of live registers is right if it has, for each instruction, what the instruction reads, and what is
//! live after it except what it writes. [`LiveTable::new`] makes a table, and checks it. Nothing ever asks for the
//! contents of registers that are not live, so they can be forgotten.
#![tactic(auto)]

mod exchanges;
pub mod laws;
mod live_laws;
mod needs;
mod table;

pub use table::LiveTable;
