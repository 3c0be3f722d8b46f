//! Why a search gives up, and what it has found.

ghost use Rattle.std.specs.Prelude.{◌≡◌};
ghost use Rattle.exploration.specs.Refusals.{stop_of_move, refused_by_search, why_of};

use crate::outcome::FinalResult;
use state_search::{MoveRefusal, Refusal as SearchRefusal};

/// Why a search gives up.
#[derive(Clone, Copy, Debug, PartialEq, Eq, Drop)]
pub enum Refusal {
    /// Out of memory.
    Memory,
    /// There are at least as many states as the limit.
    States,
    /// The observer has stopped the search.
    Stopped,
    /// A processor runs for 1,000,000 instructions without a reference, and is not found to spin.
    Alone,
}

impl Refusal {
    /// Why a search without exchanges gives up. A processor that asks for its own number is never the reason: only a
    /// search with exchanges looks for one.
    pub fn of(refusal: SearchRefusal) -> Self
        ensures { result ≡ refused_by_search refusal }
    {
        match refusal {
            SearchRefusal::Memory | SearchRefusal::Asks => Refusal::Memory,
            SearchRefusal::States => Refusal::States,
            SearchRefusal::Stopped => Refusal::Stopped,
            SearchRefusal::Alone => Refusal::Alone,
        }
    }
}

/// The results that a search has found before it gave up.
#[derive(Drop)]
pub struct PartialResults {
    /// The results, in the order of their discovery. In each, the processors of a class are sorted by their results.
    pub results: Vec<FinalResult>,
    /// How many states the search has found.
    pub states: usize,
    /// The class of each processor, as in [`Explored`](crate::Explored).
    pub classes: Vec<u8>,
}

/// Why a search gives up, with the results that it has found, if it could go on.
#[derive(Drop)]
pub enum GivenUp {
    /// Out of memory.
    Memory,
    /// There are at least as many states as the limit.
    States(PartialResults),
    /// The observer has stopped the search.
    Stopped(PartialResults),
    /// A processor runs for 1,000,000 instructions without a reference, and is not found to spin.
    Alone,
}

impl GivenUp {
    /// Why the search gives up, without its results.
    pub fn why(&self) -> Refusal
        ensures { result ≡ why_of self.now }
    {
        match self {
            GivenUp::Memory => Refusal::Memory,
            GivenUp::States(_) => Refusal::States,
            GivenUp::Stopped(_) => Refusal::Stopped,
            GivenUp::Alone => Refusal::Alone,
        }
    }
}

/// Why a search that may exchange processors ends without all results.
#[derive(Drop)]
pub(crate) enum SearchEnd {
    /// A processor asks for its own number after a reference, while processors are exchanged.
    Asks,
    GivenUp(GivenUp),
}

impl From<MoveRefusal> for SearchEnd {
    ghost from_gives = { λ why end. end ≡ stop_of_move why };

    fn from(refusal: MoveRefusal) -> Self {
        match refusal {
            MoveRefusal::Memory => SearchEnd::GivenUp(GivenUp::Memory),
            MoveRefusal::Alone => SearchEnd::GivenUp(GivenUp::Alone),
            MoveRefusal::Asks => SearchEnd::Asks,
        }
    }
}
