//! Why a machine was not made, or the order of its steps was not listed.

ghost use Rattle.std.specs.Prelude.{◌≡◌};
ghost use Rattle.machine_steps.specs.declared.error.NewError.TheVariants.{Memory as NoMemory};

use std::alloc::AllocError;
use thiserror::Error;

/// Why a machine was not made, or the order of its steps was not listed.
#[derive(Clone, Copy, Debug, PartialEq, Eq, Drop, Error)]
pub enum NewError {
    /// A number of the configuration is out of its limits, or the image was read for another number of shared words.
    #[error("K1")]
    Config,
    /// There was no memory.
    #[error("K2")]
    Memory,
}

impl From<AllocError> for NewError {
    ghost from_gives = { λ e r. r ≡ NoMemory };

    fn from(_error: AllocError) -> Self {
        NewError::Memory
    }
}
