//! A logged machine under one lock, which threads share, and a pass for each processor's thread.
//!
//! The thread that holds the pass of a processor takes its turns, and asks for steps of the network. The pass stores
//! what its calls answered: the processor's retirements and its stop, each with its place in the log, how many steps
//! the calls have entered, and the last answer. After all passes are back ([`Shared::gather`]), these agree with the
//! log, entry for entry: `specs/Rows.antt` says how.
#![tactic(auto)]

mod kinds;
pub mod laws;
mod loan;
mod locked_state;
mod pass;
mod row;
mod run;
mod shared;
mod stalling;
mod stored;

pub use flat_machine::Event;
pub use ghost_map::NewTable;
pub use hart::LocalEnd;
pub use kinds::{is_stop, is_waiting};
pub use loan::Loan;
pub use locked_state::{LockedState, Round, Rounds};
pub use machine_log::{LockRefusal, Logged, ReservedLog};
pub use pass::Pass;
pub use row::{Answer, PassEvent, PassState};
pub use run::Run;
pub use shared::Shared;
