//! States between references, each stored once, and the moves between them.
//!
//! In a state, every processor is at its next reference to a shared word, has stopped, or spins. The state also has
//! what each processor has printed, and the shared words: it is a `MacroState` of `local_reduction`. Tables that only
//! grow hold the local states and the lists of words ([`StateTables`]). A row of their numbers represents a state
//! ([`StateVector`]). [`StateTables::open`] gives the row of the first state, and [`StateTables::next`] the row to
//! which a processor's move leads.
#![tactic(auto)]

mod local_state;
mod moves;
mod opening;
mod refusal;
mod saved;
mod sparse_words;
mod spinning;
mod state_tables;
mod transition_cache;

pub use refusal::MoveRefusal;
pub use saved::SavedLocalState;
pub use sparse_words::{NonzeroWord, SparseWords};
pub use state_tables::{Extent, StateTables, StateVector};
pub use transition_cache::TransitionCaches;
