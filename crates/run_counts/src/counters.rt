//! Counts, each at a place.

ghost use Rattle.std.specs.Prelude.{◌≡◌, ◌+◌, ◌<◌, ◌^◌, IfOk, replicate, slice_index};
ghost use Rattle.run_counts.specs.Counting.{AreBelow, bumped, bumped_at};

use std::alloc::{AllocError, Global};
use std::marker::Model;

/// A list of counts, one for each place from 0.
#[derive(Debug, Drop)]
pub(crate) struct Counters {
    counts: Vec<u64>,
    /// How many steps were observed.
    observed: u64,
}

impl Model for Counters {
    ghost use Rattle.run_counts.specs.Counting.{CountersState, AreFew};

    ghost Value = { CountersState };

    ghost view = { λ c. record { counts = c.counts.items; observed = c.observed } };

    ghost invariant = { λ c. AreFew (record { counts = c.counts.items; observed = c.observed }) };
}

impl Counters {
    /// Makes this many counts of 0.
    ///
    /// # Errors
    ///
    /// [`AllocError`] if there is no memory for them.
    pub fn new(alloc: Global, places: u16) -> Result<Self, AllocError>
        ensures { IfOk result (λ c. c ≡ record { counts = replicate places 0; observed = 0 }) }
    {
        let mut counts = Vec::new(alloc);
        for _ in 0..places {
            counts.push(0)?;
        }
        Ok(Counters {
            counts,
            observed: 0,
        })
    }

    /// Observes a step, which increases the count at this place, if any.
    pub fn observe(&mut self, place: Option<u16>)
        requires { self.old.observed + 1 < 2 ^ 64 }
        ensures counts { self.new.counts ≡ bumped self.old.counts place }
        ensures observed { self.new.observed ≡ self.old.observed + 1 }
    {
        self.observed += 1;
        if let Some(place) = place {
            self.bump(usize::from(place));
        }
    }

    /// Increases the count at this place, if there is one.
    fn bump(&mut self, place: usize)
        requires { AreBelow self.old }
        ensures counts { self.new.counts ≡ bumped_at self.old.counts place }
        ensures observed { self.new.observed ≡ self.old.observed }
    {
        if place < self.counts.len() {
            self.counts[place] += 1;
        }
    }

    /// The count at a place, or 0 if there is none.
    pub fn at(&self, place: u16) -> u64
        ensures { result ≡ slice_index self.now.counts place }
    {
        match self.counts.get(usize::from(place)) {
            Some(count) => *count,
            None => 0,
        }
    }

    /// How many steps were observed.
    pub fn step_count(&self) -> u64
        ensures { result ≡ self.now.observed }
    {
        self.observed
    }
}
