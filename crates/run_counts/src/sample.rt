//! The latencies of some references.

ghost use Rattle.std.specs.Prelude.{◌≡◌, ◌∷◌, ◌++◌, [], OnOk};

use std::alloc::{AllocError, Global};
use std::marker::Model;

/// The latencies of some references, in rounds, in the order in which these retired.
#[derive(Debug, Drop)]
pub(crate) struct Sample {
    latencies: Vec<usize>,
}

impl Model for Sample {
    ghost use Rattle.std.specs.Prelude.{ℕ, List};

    ghost Value = { List ℕ };

    ghost view = { λ s. s.latencies.items };
}

impl Sample {
    /// No latencies.
    pub(crate) fn new(alloc: Global) -> Self
        ensures { result ≡ [] }
    {
        Sample {
            latencies: Vec::new(alloc),
        }
    }

    /// Adds a latency.
    ///
    /// # Errors
    ///
    /// [`AllocError`] if there is no memory for it.
    pub(crate) fn add(&mut self, latency: usize) -> Result<(), AllocError>
        ensures { OnOk result (self.new ≡ self.old ++ latency ∷ []) }
    {
        self.latencies.push(latency)?;
        Ok(())
    }

    /// The latencies, in their order.
    pub(crate) fn latencies(&self) -> &[usize]
        ensures { result.now ≡ self.now }
    {
        self.latencies.as_slice()
    }
}
