//! Why a search gives up.

ghost use Rattle.std.specs.Prelude.{◌≡◌};
ghost use Rattle.state_search.specs.Refusals.{refused_by_move};

use state_store::MoveRefusal;

/// Why a search gives up.
#[derive(Clone, Copy, Debug, PartialEq, Eq, Drop)]
pub enum Refusal {
    /// Out of memory.
    Memory,
    /// There are at least as many states as the limit.
    States,
    /// The observer has stopped the search.
    Stopped,
    /// A processor runs for 1,000,000 instructions without a reference, and is not found to spin.
    Alone,
    /// A processor asks for its own number after a reference, while processors are exchanged.
    Asks,
}

impl From<MoveRefusal> for Refusal {
    ghost from_gives = { λ why refusal. refusal ≡ refused_by_move why };

    fn from(refusal: MoveRefusal) -> Self {
        match refusal {
            MoveRefusal::Memory => Refusal::Memory,
            MoveRefusal::Alone => Refusal::Alone,
            MoveRefusal::Asks => Refusal::Asks,
        }
    }
}
