//! How runs are scheduled, and how far they go.

use random_schedules::Strategy;

/// How runs are scheduled, and how far they go.
#[derive(Clone, Copy, Debug, PartialEq, Eq, Drop)]
pub struct Policy {
    /// How a run picks the processor of each turn.
    pub strategy: Strategy,
    /// The maximum number of steps of a run, and of turns that it asks for.
    pub budget: u32,
}
