//! Why there is no trace.

ghost use Rattle.std.specs.Prelude.{◌≡◌};
ghost use Rattle.trace_file.specs.declared.error.TraceError.TheVariants.{Link as LinkFailed, Memory as NoMemory};

use link::Failed;
use std::alloc::AllocFailed;
use thiserror::Error;

/// Why a trace was not read or not written. The variants are in the order of their numbers.
#[derive(Clone, Copy, Debug, PartialEq, Eq, Drop, Error)]
pub enum TraceError {
    /// The bytes end within the header or within a record, whatever comes before the end.
    #[error("X1")]
    Truncated,
    /// The bytes are no header of a trace: the first five bytes, a size out of its range, an unused byte that is not 0,
    /// or a number of records over 4,194,304.
    #[error("X2")]
    Header,
    /// The bytes are no record of a step: the kind, a number out of its range, or an unused byte that is not 0.
    #[error("X3")]
    Record,
    /// There are bytes after the last record.
    #[error("X4")]
    Trailing,
    /// The link failed.
    #[error("X5")]
    Link,
    /// There was no memory for the steps.
    #[error("X6")]
    Memory,
}

impl From<Failed> for TraceError {
    ghost from_gives = { λ fault error. error ≡ LinkFailed };

    fn from(_fault: Failed) -> Self {
        TraceError::Link
    }
}

impl<T: Drop> From<AllocFailed<T>> for TraceError {
    ghost from_gives = { λ fault error. error ≡ NoMemory };

    fn from(_fault: AllocFailed<T>) -> Self {
        TraceError::Memory
    }
}
