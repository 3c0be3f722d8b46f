//! The exit status for how the processors of the results stopped, and whether they always can stop.

ghost use Rattle.std.specs.Prelude.{◌≤◌, ◌↔◌, All, IsTrue};
ghost use Rattle.explore_command.specs.Explorations.{IsExitOf, IsFaultless, IsNotFaulted, IsNotStuck};

use command_io::{DONE, STOPPED_BY_FAULT};
use exploration::{FinalResult, ProcessorResult, Termination};
use flat_machine::Status;

/// The exit status for results: [`STOPPED_BY_FAULT`] if a fault has stopped a processor in one of them, or if there is
/// a state from which no end can be reached; else [`DONE`].
pub fn exit_status(results: &[FinalResult], termination: Termination) -> u8
    ensures exit { IsExitOf results.now termination result }
    ensures low { result ≤ 1 }
{
    if are_faultless(results) && is_not_stuck(termination) {
        DONE
    } else {
        STOPPED_BY_FAULT
    }
}

/// Whether there is no state from which no end can be reached.
fn is_not_stuck(termination: Termination) -> bool
    ensures { IsTrue result ↔ IsNotStuck termination }
{
    match termination {
        Termination::Always | Termination::Possible => true,
        Termination::Deadlock { .. } => false,
    }
}

/// Whether no processor of any of these results was stopped by a fault.
fn are_faultless(results: &[FinalResult]) -> bool
    ensures { IsTrue result ↔ All IsFaultless results.now }
{
    results.iter().all(is_faultless)
}

/// Whether no processor of a result was stopped by a fault.
fn is_faultless(last: &FinalResult) -> bool
    ensures { IsTrue result ↔ IsFaultless last.now }
{
    last.processors.iter().all(is_not_faulted)
}

/// Whether no fault has stopped a processor.
fn is_not_faulted(processor: &ProcessorResult) -> bool
    ensures { IsTrue result ↔ IsNotFaulted processor.now }
{
    match processor.status {
        Status::Running | Status::Halted(_) => true,
        Status::Faulted(_) => false,
    }
}
