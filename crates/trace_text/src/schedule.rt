//! A trace that is made line by line.

ghost use Rattle.std.specs.Prelude.{◌≡◌, [], IfErr, Ok, OnOk};
ghost use Rattle.trace_file.specs.Traces.{IsTrace, config_of, trace_of};
ghost use Rattle.trace_text.specs.Lines.{IsLineFault, IsSizesOf};
ghost use Rattle.trace_text.specs.Steps.{with_step_of};

use crate::fault::{LineError, TextFault};
use flat_machine::Config;
use std::alloc::Global;
use std::marker::Model;
use steps::{MAX_STEPS, Step};
use trace_file::is_trace;

/// The steps that a text says, and the smallest machine with the network that it says. A trace file can spell them.
#[derive(Debug, Drop)]
pub struct Schedule {
    config: Config,
    steps: Vec<Step>,
}

impl Model for Schedule {
    ghost use Rattle.trace_file.specs.Traces.{IsTrace, TraceContents, trace_of};

    ghost Value = { TraceContents };

    ghost view = { λ s. trace_of s.config s.steps.items };

    ghost invariant = { λ s. IsTrace (trace_of s.config s.steps.items) };
}

impl Schedule {
    /// No step, on a network of sizes in their limits.
    pub(crate) fn new(alloc: Global, config: Config) -> Self
        requires { IsSizesOf config }
        ensures { result ≡ trace_of config [] }
    {
        Schedule {
            config,
            steps: Vec::new(alloc),
        }
    }

    /// Appends a step.
    ///
    /// # Errors
    ///
    /// [`TextFault::Range`] if the step has no record on a machine of this size, [`TextFault::Full`] if there is no
    /// room for it, [`LineError::Memory`] if there is no memory.
    pub(crate) fn add(&mut self, step: Step) -> Result<(), LineError>
        ensures added { OnOk result (with_step_of self.old (Ok step) ≡ Ok self.new) }
        ensures refused { IfErr result (IsLineFault (with_step_of self.old (Ok step))) }
    {
        if !is_trace(&self.config, &[step]) {
            return Err(LineError::Fault(TextFault::Range));
        }
        if MAX_STEPS <= self.steps.len() {
            return Err(LineError::Fault(TextFault::Full));
        }
        self.steps.push(step)?;
        Ok(())
    }

    /// The configuration of a machine with the network of these sizes and this many shared words.
    pub fn config(&self, shared_words: u32) -> Config
        ensures { result ≡ config_of self.now shared_words }
    {
        Config {
            shared_words,
            ..self.config
        }
    }

    /// The steps, in their order. A trace file can spell them.
    pub fn steps(&self) -> &[Step]
        ensures steps { result.now ≡ self.now.steps }
        ensures trace { IsTrace self.now }
    {
        self.steps.as_slice()
    }
}
