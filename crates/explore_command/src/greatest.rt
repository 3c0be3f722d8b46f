//! The greatest status of a processor in results.

ghost use Rattle.std.specs.Prelude.{◌≡◌};
ghost use Rattle.explore_command.specs.Sizes.{IsGreatestStatus, IsGreatestWith, greater, rank_of_status};

use exploration::{FinalResult, ProcessorResult};
use flat_machine::Status;

/// The greatest status of a processor in any of these results, if there is one. Halts are ordered by their bytes, and
/// faults come after all halts, ordered by their numbers.
pub(crate) fn greatest_status(results: &[FinalResult]) -> Option<Status>
    ensures { IsGreatestStatus results.now result }
{
    let mut greatest = None;
    for result in results {
        greatest = greatest_in(greatest, result.processors.as_slice());
    }
    greatest
}

/// The greatest of a status, if there is one, and the statuses of processors.
fn greatest_in(status: Option<Status>, processors: &[ProcessorResult]) -> Option<Status>
    ensures { IsGreatestWith status processors.now result }
{
    let mut greatest = status;
    for processor in processors {
        greatest = Some(greater(greatest, processor.status));
    }
    greatest
}

/// The greater of two statuses, or the second if there is no first.
fn greater(one: Option<Status>, other: Status) -> Status
    ensures { result ≡ greater one other }
{
    match one {
        Some(one) if rank_of(one) > rank_of(other) => one,
        _ => other,
    }
}

/// The rank of a status in that order.
fn rank_of(status: Status) -> u16
    ensures { result ≡ rank_of_status status }
{
    match status {
        Status::Running => 0,
        Status::Halted(byte) => u16::from(byte) + 1,
        Status::Faulted(fault) => u16::from(fault.number()) + 257,
    }
}
