//! What a search finds.

ghost use Rattle.std.specs.Prelude.{◌≡◌, ◌↔◌, IsTrue};

use flat_machine::Status;
use state_graph::{Lasso, Termination};
use state_search::SparseWords;
use std::marker::Model;

/// Where a processor stopped, how, and the bytes that it printed.
#[derive(Drop)]
pub struct ProcessorResult {
    pub pc: u32,
    pub status: Status,
    pub console: Vec<u8>,
}

impl Model for ProcessorResult {
    ghost use Rattle.local_reduction.specs.Results.{ProcessorResult as Contents};

    ghost Value = { Contents };

    ghost view = { λ r. record { pc = r.pc; status = r.status; console = r.console.items } };
}

/// A final result: the result of each processor, in the order of their numbers, and the shared words.
#[derive(Drop)]
pub struct FinalResult {
    pub processors: Vec<ProcessorResult>,
    pub words: SparseWords,
}

impl Model for FinalResult {
    ghost use Rattle.local_reduction.specs.Results.{FinalResult as Contents};

    ghost Value = { Contents };

    ghost view = { λ r. record { processors = r.processors.items; words = r.words } };
}

impl ProcessorResult {
    /// Returns whether both are equal.
    pub(crate) fn is_same(&self, other: &ProcessorResult) -> bool
        ensures { IsTrue result ↔ (self.now ≡ other.now) }
    {
        self.pc == other.pc
            && self.status == other.status
            && self.console.as_slice() == other.console.as_slice()
    }
}

impl FinalResult {
    /// Returns whether both are equal.
    pub fn is_same(&self, other: &FinalResult) -> bool
        ensures { IsTrue result ↔ (self.now ≡ other.now) }
    {
        are_same(self.processors.as_slice(), other.processors.as_slice())
            && self.words == other.words
    }
}

/// Returns whether the results of the processors are equal.
fn are_same(some: &[ProcessorResult], others: &[ProcessorResult]) -> bool
    ensures { IsTrue result ↔ (some.now ≡ others.now) }
{
    if some.len() != others.len() {
        return false;
    }
    for (p, one) in some.iter().enumerate() {
        if !one.is_same(&others[p]) {
            return false;
        }
    }
    true
}

/// What a search says of fair schedules: those in which each processor that runs takes turns again and again.
#[derive(Drop)]
pub enum Fairness {
    /// Every fair schedule ends.
    Ends,
    /// Some fair schedule never ends: one whose references are those of the stem, and then those of the cycle, again
    /// and again.
    Endless(Lasso),
    /// Nothing: it was not asked for, or the search found neither ranks by which every fair schedule ends nor a lasso.
    Unknown,
}

/// All final results, up to exchanges of processors of one class, and whether schedules end.
#[derive(Drop)]
pub struct Explored {
    /// The results, in the order of their discovery. In each, the processors of a class are sorted by their results.
    pub results: Vec<FinalResult>,
    pub termination: Termination,
    /// Whether every fair schedule ends, if this was asked for.
    pub fairness: Fairness,
    /// How many states the search found.
    pub states: usize,
    /// The class of each processor, named by the first processor in it. A result stands for all that exchanges of
    /// processors of one class make of it.
    pub classes: Vec<u8>,
    /// The processors whose references, one after another, lead to what was wanted, on a shortest way. It is empty if
    /// nothing was wanted, or there is no such state.
    pub way: Vec<u8>,
}
