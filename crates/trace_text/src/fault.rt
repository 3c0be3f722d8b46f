//! What can be wrong with a text.

ghost use Rattle.std.specs.Prelude.{◌≡◌};
ghost use Rattle.trace_text.specs.declared.fault.LineError.TheVariants.{Fault as WithFault, Memory as NoMemory};

use std::alloc::AllocFailed;

/// What is wrong with a line. The variants are in the order of their codes.
#[derive(Clone, Copy, Debug, PartialEq, Eq, Drop)]
pub enum TextFault {
    /// The line is the first with words, and does not have the sizes of a network in their limits; or it is the last,
    /// and no line has words.
    Sizes,
    /// The words are no step.
    Form,
    /// A number of the step is out of its range on a machine of this size.
    Range,
    /// The trace has 4,194,304 steps already.
    Full,
}

/// The first line with a fault.
#[derive(Clone, Copy, Debug, PartialEq, Eq, Drop)]
pub struct Mistake {
    /// The number of the line, counted from 1.
    pub line: usize,
    /// What is wrong with it.
    pub fault: TextFault,
}

/// Why a text says no trace.
#[derive(Clone, Copy, Debug, PartialEq, Eq, Drop)]
pub enum TextError {
    /// The text has this mistake, and none before it.
    Mistake(Mistake),
    /// There is no memory for the steps.
    Memory,
}

/// Why nothing is said after a line.
#[derive(Clone, Copy, Debug, PartialEq, Eq, Drop)]
pub(crate) enum LineError {
    /// The line has this fault.
    Fault(TextFault),
    /// There is no memory.
    Memory,
}

impl From<TextFault> for LineError {
    ghost from_gives = { λ e r. r ≡ WithFault e };

    fn from(fault: TextFault) -> Self {
        LineError::Fault(fault)
    }
}

impl<T: Drop> From<AllocFailed<T>> for LineError {
    ghost from_gives = { λ e r. r ≡ NoMemory };

    fn from(_error: AllocFailed<T>) -> Self {
        LineError::Memory
    }
}
