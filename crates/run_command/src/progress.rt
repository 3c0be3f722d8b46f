//! Shows the progress of a run on threads on a line of a terminal.

use processor_threads::Gate;
use std::sync::atomic::{AtomicU64, Ordering};
use std::time::{Clock, Instant};

/// The minimum number of milliseconds before the line is written again.
const LEAST: u64 = 1000;

/// A gate that is always open, and shows the progress of the run on a terminal: how many rounds the threads have gone
/// through, and how many instructions have retired, as far as the threads have reported them. It rewrites one line at
/// most once a second, for the first time after a second, and clears it after the threads have ended.
#[derive(Drop)]
pub struct Progress<'a, C: Clock, E: Eprint> {
    clock: &'a C,
    terminal: &'a E,
    /// None if the clock cannot be read; then nothing is shown.
    begun: Option<Instant>,
    rounds: AtomicU64,
    retired: AtomicU64,
    /// When the line was last written, in milliseconds since the beginning, or 0 if it has not been written.
    written: AtomicU64,
}

impl<'a, C: Clock, E: Eprint> Progress<'a, C, E> {
    /// The progress of a run that begins now.
    pub fn new(clock: &'a C, terminal: &'a E) -> Self {
        Progress {
            clock,
            terminal,
            begun: Instant::now(clock).ok(),
            rounds: AtomicU64::new(0),
            retired: AtomicU64::new(0),
            written: AtomicU64::new(0),
        }
    }

    /// Returns whether the line is to be written. Of the threads that ask in the same second, only one gets true.
    fn is_due(&self) -> bool {
        let Some(begun) = self.begun else {
            return false;
        };
        let Ok(since) = begun.elapsed(self.clock) else {
            return false;
        };
        let Ok(now) = u64::try_from(since.as_millis()) else {
            return false;
        };
        let last = self.written.load(Ordering::SeqCst);
        now >= last.saturating_add(LEAST)
            && self
                .written
                .compare_exchange(last, now, Ordering::SeqCst, Ordering::SeqCst)
                .is_ok()
    }
}

impl<C: Clock, E: Eprint> Gate for Progress<'_, C, E> {
    fn before(&self, _p: u8, _turn: u64) {}

    fn at_once(&self) -> usize {
        usize::MAX
    }

    fn progress(&self, rounds: u64, retired: u64) {
        self.rounds.fetch_add(rounds, Ordering::SeqCst);
        self.retired.fetch_add(retired, Ordering::SeqCst);
        if self.is_due() {
            let rounds = self.rounds.load(Ordering::SeqCst);
            let retired = self.retired.load(Ordering::SeqCst);
            let _ = eprint!(self.terminal;
                "\rultra: {rounds} rounds, {retired} instructions retired\x1b[K"
            );
        }
    }

    fn over(&self) {
        if self.written.load(Ordering::SeqCst) != 0 {
            let _ = eprint!(self.terminal; "\r\x1b[K");
        }
    }
}
