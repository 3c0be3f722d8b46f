//! How a session's end is reported.

ghost use Rattle.command_io.specs.ErrorOutputs.{errors_to};
ghost use Rattle.debug_session.specs.Sessions.{IsEndReported, IsStatusOf};

use crate::session_end::SessionEnd;
use command_io::{Fault, report_fault};
use machine_steps::Machine;
use run_reports::exit_status;
use std::io::Write;

/// Reports on standard error the fault that ended a session, if one did, and returns the exit status of `debug`. After
/// `quit` or the end of the input, that is 1 if a processor of the machine is faulted, and 0 if none is.
pub fn debug_end<E: Write>(end: SessionEnd, machine: &Machine, err: &mut E) -> u8
    ensures status { IsStatusOf end machine.now result }
    ensures reported { IsEndReported end (errors_to E.contents err.old err.new) }
{
    match end {
        SessionEnd::Quit | SessionEnd::EndOfInput => exit_status(machine),
        SessionEnd::ReadFailed | SessionEnd::WriteFailed => report_fault(Fault::Link, err),
        SessionEnd::Memory => report_fault(Fault::Memory, err),
        SessionEnd::TraceFull => report_fault(Fault::Full, err),
    }
}
