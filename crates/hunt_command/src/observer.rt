//! Observers of a hunt's progress.

use std::time::{Clock, Instant};

/// The minimum number of milliseconds before the line is written again.
const LEAST: u64 = 1000;

/// Receives the progress of a hunt.
pub trait HuntObserver {
    /// This many runs are over, and this many different results were found.
    fn progress(&mut self, runs: u32, results: usize);

    /// All runs are over, or the hunt stops early.
    fn over(&mut self);
}

/// An observer that ignores the progress.
#[derive(Clone, Copy, Debug, Drop)]
pub struct NoHuntProgress;

impl HuntObserver for NoHuntProgress {
    fn progress(&mut self, _runs: u32, _results: usize) {}

    fn over(&mut self) {}
}

/// Shows on a terminal how many runs are over, how many a second on average, and how many results were found. It
/// rewrites one line at most once a second, for the first time after a second, and clears it after the runs.
#[derive(Drop)]
pub struct HuntProgress<'a, C: Clock, E: Eprint> {
    clock: &'a C,
    terminal: &'a E,
    /// None if the clock cannot be read; then nothing is shown.
    begun: Option<Instant>,
    /// When the line was last written, in milliseconds since the beginning, or 0 if it has not been written.
    written: u64,
}

impl<'a, C: Clock, E: Eprint> HuntProgress<'a, C, E> {
    /// The progress of a hunt that begins now.
    pub fn new(clock: &'a C, terminal: &'a E) -> Self {
        HuntProgress {
            clock,
            terminal,
            begun: Instant::now(clock).ok(),
            written: 0,
        }
    }

    /// The milliseconds since the beginning, if the line is to be written now.
    fn due(&self) -> Option<u64> {
        let since = self.begun?.elapsed(self.clock).ok()?;
        let now = u64::try_from(since.as_millis()).ok()?;
        if now >= self.written.saturating_add(LEAST) {
            Some(now)
        } else {
            None
        }
    }
}

impl<C: Clock, E: Eprint> HuntObserver for HuntProgress<'_, C, E> {
    fn progress(&mut self, runs: u32, results: usize) {
        let Some(now) = self.due() else {
            return;
        };
        self.written = now;
        let pace = u64::from(runs) * 1000 / now.max(1);
        let _ = eprint!(self.terminal;
            "\rultra: {runs} runs, {pace} a second, {results} results\x1b[K"
        );
    }

    fn over(&mut self) {
        if self.written != 0 {
            let _ = eprint!(self.terminal; "\r\x1b[K");
        }
    }
}
