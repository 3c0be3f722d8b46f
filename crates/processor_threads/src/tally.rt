//! Which rounds of a thread count against its budget.

ghost use Rattle.std.specs.Prelude.{◌≡◌, ◌≤◌, ◌<◌, ◌+◌, ◌^◌};
ghost use Rattle.processor_threads.specs.Rounds.{new_tally, tally_after};

use crate::handle::RoundsDone;

/// How many rounds count. Of idle ones the first counts, and no other until the thread lets others run.
#[derive(Drop)]
pub(crate) struct Tally {
    pub(crate) counted: u32,
    /// Whether an idle round has counted since the thread last let others run.
    pub(crate) idle: bool,
}

impl Tally {
    /// No rounds yet.
    pub(crate) fn new() -> Self
        ensures { result ≡ new_tally }
    {
        Tally {
            counted: 0,
            idle: false,
        }
    }

    /// Counts rounds, after which the thread lets others run or does not.
    pub(crate) fn count(&mut self, done: RoundsDone, lets_run: bool)
        requires idle { done.idle ≤ done.rounds }
        requires few { self.old.counted + done.rounds < 2 ^ 32 }
        ensures { self.new ≡ tally_after self.old done lets_run }
    {
        let first = if self.idle { 0 } else { done.idle.min(1) };
        self.counted += (done.rounds - done.idle + first) as u32;
        self.idle = !lets_run && (self.idle || done.idle > 0);
    }
}
