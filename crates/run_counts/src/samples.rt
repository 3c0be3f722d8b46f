//! Latencies, each at a place.

ghost use Rattle.std.specs.Prelude.{◌≡◌, [], IfOk, OnOk, length, replicate};
ghost use Rattle.run_counts.specs.Latencies.{sample_at, with_latency};

use crate::sample::Sample;
use std::alloc::{AllocError, Global};
use std::marker::Model;

/// A list of samples, one for each place from 0.
#[derive(Debug, Drop)]
pub(crate) struct Samples {
    samples: Vec<Sample>,
}

impl Model for Samples {
    ghost use Rattle.std.specs.Prelude.{ℕ, List};

    ghost Value = { List (List ℕ) };

    ghost view = { λ s. s.samples.items };
}

impl Samples {
    /// Makes this many samples without latencies.
    ///
    /// # Errors
    ///
    /// [`AllocError`] if there is no memory for them.
    pub(crate) fn new(alloc: Global, places: u32) -> Result<Self, AllocError>
        ensures { IfOk result (λ s. s ≡ replicate places []) }
    {
        let mut samples = Vec::new(alloc);
        for _ in 0..places {
            samples.push(Sample::new(alloc))?;
        }
        Ok(Samples { samples })
    }

    /// Adds a latency at this place, if there is one.
    ///
    /// # Errors
    ///
    /// [`AllocError`] if there is no memory for it.
    pub(crate) fn add(&mut self, place: usize, latency: usize) -> Result<(), AllocError>
        ensures { OnOk result (self.new ≡ with_latency self.old place latency) }
    {
        if place >= self.samples.len() {
            return Ok(());
        }
        self.samples[place].add(latency)
    }

    /// The latencies at a place; none if there is no such place.
    pub(crate) fn at(&self, place: usize) -> &[usize]
        ensures { result.now ≡ sample_at self.now place }
    {
        match self.samples.get(place) {
            Some(sample) => sample.latencies(),
            None => &[],
        }
    }

    /// The number of places.
    pub(crate) fn places(&self) -> usize
        ensures { result ≡ length self.now }
    {
        self.samples.len()
    }
}
