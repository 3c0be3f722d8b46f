//! Why a text has no meaning.

ghost use Rattle.std.specs.Prelude.{◌≡◌};
ghost use Rattle.assembler.specs.declared.fault.AsmFault.TheVariants.{Memory};
ghost use Rattle.assembler.specs.Faults.{fault_of};

use asm_lines::LineFault;
use std::alloc::{AllocError, AllocFailed};
use thiserror::Error;

/// What is wrong with a line, or out of memory.
#[derive(Clone, Copy, Debug, PartialEq, Eq, Drop, Error)]
pub enum AsmFault {
    /// The first word of the statement is neither a mnemonic nor a directive.
    #[error("A1")]
    UnknownWord,
    /// Any other fault of form, or an instruction outside code.
    #[error("A2")]
    Form,
    /// A number is out of range, a target is odd or too far, or a place is not divisible by 4.
    #[error("A3")]
    Range,
    /// An earlier line has the same label.
    #[error("A4")]
    LabelTwice,
    /// No line has the label.
    #[error("A5")]
    LabelMissing,
    /// The section has no room for the statement.
    #[error("A6")]
    SectionFull,
    /// Out of memory.
    #[error("A7")]
    Memory,
}

/// Why a text could not be assembled.
#[derive(Clone, Copy, Debug, PartialEq, Eq, Drop, Error)]
#[error("{fault} line {line}")]
pub struct AsmError {
    /// The line, counted from 1.
    pub line: usize,
    /// What is wrong there.
    pub fault: AsmFault,
}

impl AsmFault {
    /// The fault of a text with this fault in a line.
    pub fn of(fault: LineFault) -> AsmFault
        ensures { result ≡ fault_of fault }
    {
        match fault {
            LineFault::Unknown => AsmFault::UnknownWord,
            LineFault::Form => AsmFault::Form,
            LineFault::Range => AsmFault::Range,
        }
    }
}

impl From<AllocError> for AsmFault {
    ghost from_gives = { λ _ e. e ≡ Memory };

    fn from(_e: AllocError) -> AsmFault {
        AsmFault::Memory
    }
}

impl<T: Drop> From<AllocFailed<T>> for AsmFault {
    ghost from_gives = { λ _ e. e ≡ Memory };

    fn from(_e: AllocFailed<T>) -> AsmFault {
        AsmFault::Memory
    }
}
