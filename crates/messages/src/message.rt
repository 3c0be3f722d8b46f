//! Requests, replies and records.

use phi_algebra::Phi;

/// A reference to a shared word, or several that were combined, on the way to the module.
#[derive(Clone, Copy, Debug, PartialEq, Eq, Drop)]
pub struct Request {
    /// The processor that gets the reply: 0 to 63.
    pub leader: u8,
    /// The number of the shared word.
    pub word: u32,
    /// The function that changes the word.
    pub phi: Phi,
    /// How often the request was combined in its queue.
    pub marks: u8,
}

/// The value that a word had, on the way back.
#[derive(Clone, Copy, Debug, Default, PartialEq, Eq, Drop)]
pub struct Reply {
    /// The processor that gets the reply: 0 to 63.
    pub leader: u8,
    /// The value of the word before the leader's function.
    pub value: u32,
}

/// What an output keeps of a combination until the reply comes back. The leader then gets the
/// reply's value, and the second what the leader's function makes of it.
#[derive(Clone, Copy, Debug, PartialEq, Eq, Drop)]
pub struct Record {
    /// The leader of the entry.
    pub leader: u8,
    /// The entry's function before the combination.
    pub phi: Phi,
    /// The leader of the request that came second.
    pub second: u8,
}

/// A placeholder for the unused places of a buffer of fixed size.
impl Default for Record {
    fn default() -> Self {
        Record {
            leader: 0,
            phi: Phi::identity(),
            second: 0,
        }
    }
}
