//! Why calls on the console's queues are refused.

ghost use Rattle.console_monitor.specs.declared.refusal.ConsoleRefusal.TheVariants.{Memory};
ghost use Rattle.std.specs.Prelude.{◌≡◌};

use std::alloc::{AllocError, AllocFailed};
use thiserror::Error;

/// Why queues are not made, or what is left in them is not returned.
#[derive(Clone, Copy, Debug, PartialEq, Eq, Drop, Error)]
pub enum ConsoleRefusal {
    /// Out of memory.
    #[error("Q1")]
    Memory,
}

impl From<AllocError> for ConsoleRefusal {
    ghost from_gives = { λ e r. r ≡ Memory };

    fn from(_error: AllocError) -> Self {
        ConsoleRefusal::Memory
    }
}

impl<T: Drop> From<AllocFailed<T>> for ConsoleRefusal {
    ghost from_gives = { λ e r. r ≡ Memory };

    fn from(_error: AllocFailed<T>) -> Self {
        ConsoleRefusal::Memory
    }
}
