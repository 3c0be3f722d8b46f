//! `ultra explore`: from the bytes of an image to every final result of its program.
//!
//! The crate `exploration` finds the results, and `observed_results` makes their lines, or, if words are chosen, those
//! of their different observed parts. This crate prints them. [`explore_every_size`] prints a line for each size of a
//! machine.
//!
//! If a trace is asked for, that of a witness or of a lasso is written before the lines (crate `witness_traces`). If a
//! search gives up, the results found so far are printed.
#![tactic(auto)]

mod command;
mod fairness;
mod greatest;
pub mod laws;
mod observing;
mod progress;
mod report;
mod searching;
mod sizes;
mod status;

pub use command::{Asked, explore_command};
pub use exploration::{NoProgress, SearchObserver};
pub use progress::SearchProgress;
pub use sizes::explore_every_size;
pub use status::exit_status;
