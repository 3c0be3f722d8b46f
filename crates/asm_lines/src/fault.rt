//! Why a line is not accepted.

ghost use Rattle.std.specs.Prelude.{◌≡◌};
ghost use Rattle.asm_lines.specs.declared.fault.LineError.TheVariants.{Memory, Fault};

use std::alloc::{AllocError, AllocFailed};
use thiserror::Error;

/// What is wrong with a line.
#[derive(Clone, Copy, Debug, PartialEq, Eq, Drop, Error)]
pub enum LineFault {
    /// The first word is neither a mnemonic nor a directive.
    #[error("unknown word")]
    Unknown,
    /// Any other fault of form: too few or too many operands, or one that is not the register,
    /// number or label that it has to be.
    #[error("form")]
    Form,
    /// A number is out of range.
    #[error("range")]
    Range,
}

/// Why a line gives no statement.
#[derive(Clone, Copy, Debug, PartialEq, Eq, Drop, Error)]
pub enum LineError {
    /// There was no memory for the statement.
    #[error("memory")]
    Memory,
    /// The line has this fault.
    #[error("{0}")]
    Fault(LineFault),
}

impl From<AllocError> for LineError {
    ghost from_gives = { λ _ e. e ≡ Memory };

    fn from(_e: AllocError) -> LineError {
        LineError::Memory
    }
}

impl<T: Drop> From<AllocFailed<T>> for LineError {
    ghost from_gives = { λ _ e. e ≡ Memory };

    fn from(_e: AllocFailed<T>) -> LineError {
        LineError::Memory
    }
}

impl From<LineFault> for LineError {
    ghost from_gives = { λ f e. e ≡ Fault f };

    fn from(f: LineFault) -> LineError {
        LineError::Fault(f)
    }
}
