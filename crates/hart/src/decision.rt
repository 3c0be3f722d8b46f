//! What a processor's next turn is.

use flat_machine::{Fault, Retired};
use phi_algebra::Phi;
use rv_table::{AmoOp, LoadOp, StoreOp};

/// Which instruction refers to a shared word.
#[derive(Clone, Copy, Debug, PartialEq, Eq, Drop)]
pub enum Shape {
    Load(LoadOp),
    Store(StoreOp),
    Amo(AmoOp),
}

/// What a processor's next turn is.
#[derive(Clone, Copy, Debug, PartialEq, Eq, Drop)]
pub enum Decision {
    /// An instruction that needs only the core itself.
    Local,
    /// An instruction that refers to a shared word.
    Refer {
        /// The word's number, from 0, below the number of shared words.
        word: u32,
        /// What becomes of the word.
        phi: Phi,
        /// The instruction's operation.
        shape: Shape,
    },
    /// An environment call that halts the processor, with this byte.
    Halt(u8),
    /// The instruction faults, or none can be fetched.
    Fault(Fault),
}

/// How far a core got with a turn on its own.
#[derive(Clone, Copy, Debug, PartialEq, Eq, Drop)]
pub enum Taken {
    /// The instruction retired.
    Retired(Retired),
    /// The instruction refers to a shared word. Nothing is done yet.
    Refers {
        /// The word's number, from 0, below the number of shared words.
        word: u32,
        /// What becomes of the word.
        phi: Phi,
    },
    /// An environment call that halts the processor, with this byte. Nothing is done yet.
    Halts(u8),
    /// The instruction faults, or none can be fetched. Nothing is done yet.
    Faults(Fault),
}
