//! The numbers that a state has.

ghost use Rattle.std.specs.Prelude.{◌≡◌, count_by};
ghost use Rattle.flat_machine.specs.State.{is_running};
ghost use Rattle.state_conditions.specs.Conditions.{has_faulted, has_halted, is_of, number_of};

use crate::condition::{Group, ProcessorState, Subject};
use flat_machine::Status;
use state_store::SparseWords;

impl Subject {
    /// The number that a state with these processors and shared words has.
    pub(crate) fn number(self, processors: &[ProcessorState], words: &SparseWords) -> usize
        ensures { result ≡ number_of self processors.now words.now }
    {
        match self {
            Subject::Word(word) => words.get(word) as usize,
            Subject::Count(group) => group.count(processors),
        }
    }
}

impl Group {
    /// How many of the processors are of the group.
    pub(crate) fn count(self, processors: &[ProcessorState]) -> usize
        ensures { result ≡ count_by (is_of self) processors.now }
    {
        processors.iter().filter(|p| self.has(**p)).count()
    }

    /// Whether a processor is of the group.
    fn has(self, processor: ProcessorState) -> bool
        ensures { result ≡ is_of self processor }
    {
        match self {
            Group::At { first, last } => {
                is_running(processor.status) && first <= processor.pc && processor.pc <= last
            }
            Group::Running => is_running(processor.status),
            Group::Halted => has_halted(processor.status),
            Group::Faulted => has_faulted(processor.status),
        }
    }
}

/// Whether a processor runs.
fn is_running(status: Status) -> bool
    ensures { result ≡ is_running status }
{
    match status {
        Status::Running => true,
        Status::Halted(_) | Status::Faulted(_) => false,
    }
}

/// Whether a processor has halted.
fn has_halted(status: Status) -> bool
    ensures { result ≡ has_halted status }
{
    match status {
        Status::Halted(_) => true,
        Status::Running | Status::Faulted(_) => false,
    }
}

/// Whether a fault has stopped a processor.
fn has_faulted(status: Status) -> bool
    ensures { result ≡ has_faulted status }
{
    match status {
        Status::Faulted(_) => true,
        Status::Running | Status::Halted(_) => false,
    }
}
