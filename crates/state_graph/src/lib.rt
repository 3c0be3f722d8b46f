//! The graph of the states that a search has found, and what it says of the flat machine.
//!
//! A state is its place in a list. [`Successors`] has, for each state, the places of its successors, up to exchanges of
//! processors that are alike. Each state is ranked after states to which its moves lead. If each state has a rank after
//! all of them, every schedule ends. If each has a rank after some of them, an end can always be reached
//! ([`termination_of`]). By other ranks every fair schedule ends; by a lasso some fair schedule never ends
//! ([`fair_certificate_of`]). [`path_to`] lists the states on a path to a state.
//!
//! The laws say what the graph means for the flat machine's results and schedules. Each law is the contract of a
//! function that does nothing.
#![tactic(auto)]

mod certificate;
mod fairness;
mod lasso;
pub mod laws;
mod paths;
mod ranks;
mod successors;
mod termination;
mod walk;
mod ways;

pub use certificate::{FairCertificate, fair_certificate_of};
pub use fairness::{FairRanks, NO_MOVE};
pub use lasso::Lasso;
pub use paths::path_to;
pub use successors::Successors;
pub use termination::{Termination, termination_of};
