//! The values that a step's line tells.

use crate::reference::Reference;
use phi_algebra::Phi;

/// What the line of a step tells beside its outcome: the functions and values of messages, and what became of a word.
#[derive(Clone, Copy, Debug, PartialEq, Eq, Drop)]
pub enum Values {
    /// Nothing.
    Nothing,
    /// A processor has sent a request for this word, with this function.
    Sent {
        phi: Phi,
        word: u32,
    },
    /// Two requests were combined: the function of both, which goes on, and that of the first alone, which is kept.
    Joined {
        both: Phi,
        kept: Phi,
    },
    /// A module has executed a request.
    Served(Reference),
    /// A reply was split: the values that the seconds get, in the order of their combinations.
    Answered {
        first: Option<u32>,
        second: Option<u32>,
        third: Option<u32>,
    },
}
