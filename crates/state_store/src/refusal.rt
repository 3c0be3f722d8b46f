//! Why a move cannot be made.

/// Why a move cannot be made.
#[derive(Clone, Copy, Debug, PartialEq, Eq, Drop)]
pub enum MoveRefusal {
    /// Out of memory.
    Memory,
    /// The processor runs for 1,000,000 instructions without a reference, and is not found to spin.
    Alone,
    /// The processor asks for its own number after a reference, while processors are exchanged.
    Asks,
}
