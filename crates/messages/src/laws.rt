//! Laws of every move of a message, each the contract of a function that does nothing.

ghost use Rattle.messages.specs.Laws.{NothingMovesDown, NothingMovesUp, SecondsAreAnswered};

/// A move from a place without a message stalls, and the network is as before.
#[inline(always)]
pub fn moves_of_nothing_stall()
    ensures up { NothingMovesUp }
    ensures down { NothingMovesDown }
{}

/// If the leader of a reply has at most three records, a move that answers seconds names those of all its records, in
/// order.
#[inline(always)]
pub fn seconds_are_answered()
    ensures { SecondsAreAnswered }
{}
