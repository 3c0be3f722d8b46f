//! What holds of this crate's values: each is the contract of a function that does nothing.

pub use crate::lending::lending_is_well_formed;
pub use crate::log::log_is_well_formed;
pub use crate::reserved::reserved_log_is_well_formed;
