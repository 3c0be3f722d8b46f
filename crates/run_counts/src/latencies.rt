//! Latencies of references, step by step.

ghost use Rattle.std.specs.Prelude.{◌≡◌, ◌+◌, ◌<◌, ◌^◌, IfOk, OnOk, replicate};
ghost use Rattle.run_counts.specs.Latencies.{latencies_after, latency_of, no_latencies, step_on, with_reference};
ghost use Rattle.run_counts.specs.Latencies.{with_request, with_retirement};

use crate::keys;
use crate::rounds::{Begun, rounds_after};
use crate::sample::Sample;
use crate::samples::Samples;
use std::alloc::{AllocError, Global};
use std::marker::Model;
use steps::{Outcome, Step};

/// The latencies of the references that the observed steps retired: of all, by processor, and by shared word. A latency
/// is the difference of two rounds of the sweep: of the turn that retired the instruction, and of the turn that sent
/// the request.
#[derive(Debug, Drop)]
pub struct Latencies {
    begun: Begun,
    /// For each processor, the round of the turn that last sent a request.
    sent: Vec<usize>,
    pub(crate) all: Sample,
    pub(crate) processors: Samples,
    pub(crate) words: Samples,
}

impl Model for Latencies {
    ghost use Rattle.run_counts.specs.Latencies.{LatencyState};

    ghost Value = { LatencyState };

    ghost view = { λ l. record {
      begun = l.begun;
      sent = l.sent.items;
      all = l.all;
      processors = l.processors;
      words = l.words;
    } };
}

impl Latencies {
    /// No latencies, as before any step of a machine with this many shared words.
    ///
    /// # Errors
    ///
    /// [`AllocError`] if there is no memory for them.
    pub fn new(alloc: Global, words: u32) -> Result<Self, AllocError>
        ensures { IfOk result (λ l. l ≡ no_latencies words) }
    {
        Ok(Latencies {
            begun: Begun {
                count: 0,
                last: None,
            },
            sent: zeros(alloc, 64)?,
            all: Sample::new(alloc),
            processors: Samples::new(alloc, 64)?,
            words: Samples::new(alloc, words)?,
        })
    }

    /// Observes a step, its outcome, and the shared word on which it acts, if any.
    ///
    /// # Errors
    ///
    /// [`AllocError`] if there is no memory for a latency.
    pub fn observe(
        &mut self,
        step: &Step,
        outcome: &Outcome,
        word: Option<u32>,
    ) -> Result<(), AllocError>
        requires { self.old.begun.count + 1 < 2 ^ 64 }
        ensures { OnOk result (self.new ≡ latencies_after self.old (step_on step.now outcome.now word)) }
    {
        self.begun = rounds_after(self.begun, step);
        self.send(keys::processor_of_request(step, outcome));
        self.retire(keys::processor_of_retirement(step, outcome), word)
    }

    /// The latencies of all references, in the order in which these retired.
    pub fn of_all(&self) -> &[usize]
        ensures { result.now ≡ self.now.all }
    {
        self.all.latencies()
    }

    /// How many rounds the observed steps began.
    pub fn rounds(&self) -> usize
        ensures { result ≡ self.now.begun.count }
    {
        self.begun.count
    }

    /// The processor, if any, has sent a request in the last round.
    fn send(&mut self, processor: Option<u16>)
        ensures { self.new ≡ with_request self.old processor }
    {
        if let Some(processor) = processor {
            let place = usize::from(processor);
            if place < self.sent.len() {
                self.sent[place] = self.begun.count;
            }
        }
    }

    /// The processor, if any, has retired an instruction in the last round. If this acts on a shared word, it is a
    /// reference.
    fn retire(&mut self, processor: Option<u16>, word: Option<u32>) -> Result<(), AllocError>
        ensures { OnOk result (self.new ≡ with_retirement self.old processor word) }
    {
        match (processor, word) {
            (Some(processor), Some(word)) => self.add(usize::from(processor), word as usize),
            (Some(_), None) => Ok(()),
            (None, _) => Ok(()),
        }
    }

    /// The processor has retired a reference to the word in the last round.
    fn add(&mut self, processor: usize, word: usize) -> Result<(), AllocError>
        ensures { OnOk result (self.new ≡ with_reference self.old processor word) }
    {
        let latency = self.latency(processor);
        self.all.add(latency)?;
        self.processors.add(processor, latency)?;
        self.words.add(word, latency)
    }

    /// The rounds from that in which the processor last sent a request to the last one.
    fn latency(&self, processor: usize) -> usize
        ensures { result ≡ latency_of self.now processor }
    {
        let sent = match self.sent.get(processor) {
            Some(round) => *round,
            None => 0,
        };
        self.begun.count.saturating_sub(sent)
    }
}

/// This many zeros.
fn zeros(alloc: Global, count: u8) -> Result<Vec<usize>, AllocError>
    ensures { IfOk result (λ v. v.items ≡ replicate count 0) }
{
    let mut zeros = Vec::new(alloc);
    for _ in 0..count {
        zeros.push(0)?;
    }
    Ok(zeros)
}
