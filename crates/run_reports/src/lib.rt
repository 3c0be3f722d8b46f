//! The report of a run.
//!
//! A report depends only on the image, the machine's size and the steps ([`laws`]): a machine that opens on the image
//! takes the steps ([`replay_counted`]), and a tally counts what each step shows. [`print_run`] reports the log of a
//! run in this way, and [`save`] writes its trace. A machine that keeps no log counts what it shows as it goes
//! ([`step_tallied`]), and is reported itself ([`report_with_status`]).
#![tactic(auto)]

pub mod laws;
mod output;
mod printing;
mod reporting;
mod states;
mod taking;
mod tally_in_memory;

pub use output::save;
pub use printing::print_run;
pub use reporting::{push_words, report_with_status};
pub use states::exit_status;
pub use taking::{drain_counted, drain_tallied, replay_counted, step_tallied};
