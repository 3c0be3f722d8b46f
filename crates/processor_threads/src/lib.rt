//! The processors of a machine, each run by a thread of its own.
//!
//! [`run_threads`] takes a logged machine, puts it under the lock (`machine_lock`), and runs a thread for each
//! processor, which takes its turns and asks for steps of the network, and one that listens to what they send to the
//! console (`console_monitor`). After all threads have ended, the log, what the passes store and the consoles agree,
//! however the threads ran side by side.
#![tactic(auto)]

mod context;
mod fault;
mod gate;
mod handle;
mod listener;
mod run;
mod step_buffer;
mod tally;
mod worker;
mod workers;

pub use fault::RunFault;
pub use gate::{Gate, Open};
pub use run::{Ended, run_threads};
pub use schedules::{Arbiter, Shuffled};
