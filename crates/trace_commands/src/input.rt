//! The trace that a command reads.

ghost use Rattle.std.specs.Prelude.{◌≡◌, ◌↔◌, true, false, IfOk, IfErr, IsErrOf};
ghost use Rattle.trace_commands.specs.Causes.{IsFaultOfTrace};
ghost use Rattle.trace_commands.specs.TraceReports.{IsTraceOf};

use command_io::Fault;
use link::LinkRead;
use std::alloc::Global;
use trace_file::{Trace, TraceError, read_trace};

/// Reads the trace in a file.
///
/// # Errors
///
/// [`Fault::Trace`] with [`TraceError::Link`] exactly if a read fails, and with another error if the file is refused;
/// and [`Fault::Memory`].
pub fn trace_of<R: LinkRead>(alloc: Global, file: &mut R) -> Result<Trace, Fault>
    requires reads { R.has_failed file.old ≡ false }
    ensures trace { IfOk result (IsTraceOf (R.remaining file.old)) }
    ensures refused { IfErr result (IsFaultOfTrace (R.remaining file.old)) }
    ensures unread { IsErrOf result (Fault.Trace TraceError.Link) ↔ (R.has_failed file.new ≡ true) }
{
    Ok(read_trace(alloc, file)?)
}
