//! Why a call of a log, or of the lock round it, is refused.

use thiserror::Error;

/// Why a call of a log, or of the lock round it, is refused. Nothing changes then.
#[derive(Clone, Copy, Debug, PartialEq, Eq, Drop, Error)]
pub enum LockRefusal {
    /// There is no memory for a place in the log, in a pass, or for the records of a loan.
    #[error("L1")]
    Memory,
    /// The log would have more than [`steps::MAX_STEPS`] steps, with those that are promised to loans.
    #[error("L2")]
    Full,
    /// The machine has no processor, module, wire or stage of a number that was named, or the call does not take steps
    /// of this kind.
    #[error("L3")]
    Unnamed,
    /// A core cannot be lent: its processor has a reference open, does not run, or its core is already lent.
    #[error("L4")]
    NotFree,
}
