//! A row of a study.

use crate::size::Size;

/// How a run by the sweep ended.
#[derive(Clone, Copy, Debug, PartialEq, Eq, Drop)]
pub enum RunEnd {
    /// Each processor has stopped, none of them by a fault.
    Over,
    /// A fault has stopped a processor.
    Fault,
    /// The budget is used up, a processor still runs, and no fault has stopped one.
    Budget,
}

/// What the steps of a run come to.
#[derive(Clone, Copy, Debug, PartialEq, Eq, Drop)]
pub struct Figures {
    pub steps: u64,
    /// The fewest rounds of the sweep that take the steps.
    pub rounds: usize,
    /// The references that retired.
    pub references: usize,
    /// The services at all modules.
    pub serve: u64,
    /// The requests that were combined into others.
    pub combined: u64,
    /// The most requests that one queue held at once.
    pub requests: usize,
    /// The most records that one wait buffer held at once.
    pub records: usize,
    /// The most replies that one queue held at once.
    pub replies: usize,
    /// The mean latency of the references, in hundredths of a round, rounded down; 0 if there are none.
    pub mean: u128,
}

/// A run on a machine of one size.
#[derive(Clone, Copy, Debug, PartialEq, Eq, Drop)]
pub struct Row {
    pub size: Size,
    /// How many processors the machine has.
    pub processors: u8,
    pub end: RunEnd,
    pub figures: Figures,
}
