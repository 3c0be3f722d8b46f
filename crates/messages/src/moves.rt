//! Outcomes of moves.

use crate::seconds::Seconds;

/// The outcome of moving a request to the next stage.
#[derive(Clone, Copy, Debug, PartialEq, Eq, Drop)]
pub enum UpMove {
    /// The request is now the last in its output's queue.
    Moved,
    /// The request was combined with an entry of that queue.
    Combined {
        /// The leader of the entry, which leads both.
        first: u8,
        /// The leader of the request that moved.
        second: u8,
    },
    /// Nothing happened: there was no request, or no room.
    Stalled,
}

/// The outcome of moving a reply back over a stage.
#[derive(Clone, Copy, Debug, PartialEq, Eq, Drop)]
pub enum DownMove {
    /// The reply went on alone.
    Moved,
    /// The reply went on, and so did the replies for the seconds that were combined with its
    /// leader.
    Answered {
        /// The seconds.
        to: Seconds,
    },
    /// Nothing happened: there was no reply, or no room for all replies.
    Stalled,
}
