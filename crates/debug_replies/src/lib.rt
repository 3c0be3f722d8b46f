//! The replies of a debugger's session, which show the flat machine, and the breaks before which it stops.
#![tactic(auto)]

mod breaks;
mod digits;
mod error;
mod faults;
mod showing;
mod stopping;

pub use breaks::Breaks;
pub use error::{Error, error_of};
pub use faults::Faults;
pub use showing::show;
pub use stopping::{is_running, named_stop, show_stop};
