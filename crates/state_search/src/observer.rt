//! Observers of a search's progress.

/// An observer of a search's progress. It may stop the search.
pub trait SearchObserver {
    /// The search has found `states` states so far. It reports this before it looks at the moves of each state. Returns
    /// whether the search is to go on.
    fn progress(&mut self, states: usize) -> bool;

    /// The search is over. Another may begin.
    fn over(&mut self);
}

/// An observer that ignores everything, and stops no search.
#[derive(Clone, Copy, Debug, Drop)]
pub struct NoProgress;

impl SearchObserver for NoProgress {
    #[inline(always)]
    fn progress(&mut self, _states: usize) -> bool {
        true
    }

    fn over(&mut self) {}
}
