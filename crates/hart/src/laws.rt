//! What holds of this crate's values. Each law is the contract of a function that does nothing.

pub use crate::function_laws::parts_are_bytes;
pub use crate::processor::core_has_registers;
pub use crate::retirements::retirements_are_few;
pub use crate::run_laws::local_runs_are_turns;
