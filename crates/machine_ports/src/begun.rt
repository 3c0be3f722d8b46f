//! How a turn begins.

use flat_machine::{Cause, Retired};
use phi_algebra::Phi;

/// What a port without an open reference does in a turn.
#[derive(Clone, Copy, Debug, PartialEq, Eq, Drop)]
pub enum Begun {
    /// The instruction retired.
    Retired(Retired),
    /// The instruction refers to a shared word, and the port is now open.
    Referred {
        /// The word's number, from 0, below the number of shared words.
        word: u32,
        /// The function that changes the word.
        phi: Phi,
    },
    /// The processor stopped.
    Stopped(Cause),
}
