//! Every final result of a small program.
//!
//! [`explore`] finds exactly the results in which a machine can end on some schedule of its steps. A result says where
//! each processor stopped, how, and what it printed, and has the shared words. The search looks at the states between
//! references (crate `state_search`). Processors that are alike can be exchanged, so a result stands for all that such
//! exchanges make of it (crates `local_reduction` and `state_graph`).
//!
//! A law shows that the combining machine has exactly the results of the flat machine
//! ([`results_are_those_of_the_flat_machine`]), so they do not depend on the sizes of its queues and wait buffers.
#![tactic(auto)]

mod ending;
mod fairness;
pub mod laws;
mod opening;
mod order;
mod outcome;
mod refusal;
mod result_laws;
mod run;
mod way;

pub use opening::{cores_of, words_of};
pub use outcome::{Explored, Fairness, FinalResult, ProcessorResult};
pub use refusal::{GivenUp, PartialResults, Refusal};
pub use run::{Search, explore, extent_of};
pub use state_graph::{Lasso, Termination};
pub use state_search::{NoProgress, NonzeroWord, SearchObserver, SparseWords};
pub use way::way_of;
