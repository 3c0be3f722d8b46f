//! Shows the progress of a search on a line of a terminal, and stops a search that takes too long.

use exploration::SearchObserver;
use std::time::{Clock, Instant};

/// The minimum number of milliseconds before the line is written again.
const LEAST: u64 = 1000;

/// After how many states the clock is read again. A search finds as many in less than a millisecond.
const STATES_A_LOOK: u32 = 256;

/// Shows on a terminal how many states a search has found, and how many a second on average. It rewrites one line at
/// most once a second, for the first time after a second, and clears it after the search. Also stops a search that
/// takes longer than it may. Then another search may begin.
#[derive(Drop)]
pub struct SearchProgress<'a, C: Clock, E: Eprint> {
    clock: &'a C,
    terminal: &'a E,
    /// Whether progress is shown.
    shown: bool,
    /// How many milliseconds a search may take, if they are bounded.
    most: Option<u64>,
    /// None if the clock cannot be read; then nothing is shown, and no search is stopped.
    begun: Option<Instant>,
    /// When the line was last written, in milliseconds since the beginning, or 0 if it has not been written.
    written: u64,
    /// How many states are passed over before the clock is read again.
    left: u32,
}

impl<'a, C: Clock, E: Eprint> SearchProgress<'a, C, E> {
    /// The progress of a search that begins now and may take so many seconds, if they are bounded. It is shown on the
    /// terminal if `shown` says so.
    pub fn new(clock: &'a C, terminal: &'a E, shown: bool, seconds: Option<u32>) -> Self {
        SearchProgress {
            clock,
            terminal,
            shown,
            most: milliseconds(seconds),
            begun: Instant::now(clock).ok(),
            written: 0,
            left: 0,
        }
    }

    /// The milliseconds since the beginning, unless the clock cannot be read.
    fn elapsed(&self) -> Option<u64> {
        let since = self.begun?.elapsed(self.clock).ok()?;
        u64::try_from(since.as_millis()).ok()
    }

    /// Shows how many states were found until now, unless the line was written less than a second ago.
    fn show(&mut self, states: usize, now: u64) {
        if !self.shown || now < self.written.saturating_add(LEAST) {
            return;
        }
        self.written = now;
        let pace = (states as u64).saturating_mul(1000) / now.max(1);
        let _ = eprint!(self.terminal; "\rultra: {states} states, {pace} a second\x1b[K");
    }

    /// Whether a search that has taken until now is to go on.
    fn is_in_time(&self, now: u64) -> bool {
        match self.most {
            Some(most) => now < most,
            None => true,
        }
    }
}

/// Seconds in milliseconds.
fn milliseconds(seconds: Option<u32>) -> Option<u64> {
    Some(u64::from(seconds?) * 1000)
}

impl<C: Clock, E: Eprint> SearchObserver for SearchProgress<'_, C, E> {
    fn progress(&mut self, states: usize) -> bool {
        if self.left > 0 {
            self.left -= 1;
            return true;
        }
        self.left = STATES_A_LOOK;
        let Some(now) = self.elapsed() else {
            return true;
        };
        self.show(states, now);
        self.is_in_time(now)
    }

    fn over(&mut self) {
        if self.written != 0 {
            let _ = eprint!(self.terminal; "\r\x1b[K");
        }
        self.begun = Instant::now(self.clock).ok();
        self.written = 0;
        self.left = 0;
    }
}
