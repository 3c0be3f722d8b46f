//! A trace that was read.

ghost use Rattle.std.specs.Prelude.{◌≡◌};
ghost use Rattle.trace_file.specs.Traces.{TraceContents, config_of};

use crate::header::Header;
use flat_machine::Config;
use std::marker::Model;
use steps::Step;

/// A trace: the steps that a machine has taken, and the sizes of its network.
#[derive(Debug, Drop)]
pub struct Trace {
    k: u8,
    c: u8,
    b: u8,
    r: u8,
    steps: Vec<Step>,
}

impl Model for Trace {
    ghost use Rattle.trace_file.specs.Traces.{TraceContents};

    ghost Value = { TraceContents };

    ghost view = { λ t. record { k = t.k; c = t.c; b = t.b; r = t.r; steps = t.steps.items } };
}

impl Trace {
    /// The trace of these steps, on a network of the header's sizes.
    pub(crate) fn new(header: &Header, steps: Vec<Step>) -> Self
        ensures { result
            ≡ record { k = header.now.k; c = header.now.c; b = header.now.b; r = header.now.r; steps = steps.items } }
    {
        Trace {
            k: header.k,
            c: header.c,
            b: header.b,
            r: header.r,
            steps,
        }
    }

    /// The configuration of a machine with the trace's network and this many shared words. A trace does not have their
    /// number.
    pub fn config(&self, shared_words: u32) -> Config
        ensures { result ≡ config_of self.now shared_words }
    {
        Config {
            k: self.k,
            c: self.c,
            b: self.b,
            r: self.r,
            shared_words,
        }
    }

    /// The steps, in the order in which they were taken.
    pub fn steps(&self) -> &[Step]
        ensures { result.now ≡ self.now.steps }
    {
        self.steps.as_slice()
    }
}
