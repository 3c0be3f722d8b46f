//! `ultra run`: from the bytes of an image to the report of its run.
//!
//! [`run_command`] runs a program by the sweep (`schedules`). [`threaded_run_command`] runs each processor of a machine
//! on its own thread (`processor_threads`), until all have stopped. [`unlogged_run_command`] runs a program by the
//! sweep and keeps no log of it, so it may take more steps; it reports the machine that took them.
//!
//! The others report the log of the run as `ultra replay` does (`run_reports`). For a run on threads, the log has
//! the steps in the order in which the threads took them, and the console bytes are those that the threads sent.
//!
//! A run that its budget ends is reported only if that is asked for. Then the fault of the budget is reported, too.
#![tactic(auto)]

mod counted;
pub mod laws;
mod progress;
mod run;
mod sweep;
mod threads;
mod unfinished;
mod unlogged;

pub use progress::Progress;
pub use sweep::run_command;
pub use threads::threaded_run_command;
pub use unlogged::unlogged_run_command;
