//! The gate that a thread passes before each turn, and to which it reports its progress.

/// The gate that threads pass before their turns, and to which they report their progress. It is called outside the
/// lock, so it may hold a thread back until others have gone on.
pub trait Gate {
    /// Called before the thread of processor `p` takes a turn, or several ([`Gate::at_once`]). `turn` is the number of
    /// the first of them among the thread's turns, from 0.
    fn before(&self, p: u8, turn: u64);

    /// The most rounds that a thread may take after one call of `before`, without another thread's step between them:
    /// one, unless the gate holds no thread back. A thread takes several only while its processor waits for a reply. It
    /// asks its arbiter for as many steps ahead, and for 512 at most.
    fn at_once(&self) -> usize {
        1
    }

    /// Called with the rounds that a thread has taken, and the instructions that its processor has retired, since its
    /// last report. A thread reports after 1,024 rounds or more, and when its processor has stopped or its budget is
    /// used up.
    fn progress(&self, _rounds: u64, _retired: u64) {}

    /// Called after the threads of all processors have ended. No other call follows.
    fn over(&self) {}
}

/// A gate that is always open.
#[derive(Clone, Copy, Debug, Drop)]
pub struct Open;

impl Gate for Open {
    fn before(&self, _p: u8, _turn: u64) {}

    fn at_once(&self) -> usize {
        usize::MAX
    }
}
