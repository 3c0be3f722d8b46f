//! The exit status for how the processors of a machine stopped.

ghost use Rattle.run_reports.specs.Reports.{IsExitOf};

use command_io::{DONE, STOPPED_BY_FAULT};
use machine_steps::{Machine, any_is_faulted};

/// The exit status for a machine: [`STOPPED_BY_FAULT`] if a fault has stopped one of its processors, else [`DONE`].
pub fn exit_status(machine: &Machine) -> u8
    ensures { IsExitOf machine.now result }
{
    if any_is_faulted(machine) {
        STOPPED_BY_FAULT
    } else {
        DONE
    }
}
