//! `ultra trace`: from the bytes of a trace to its text.

ghost use Rattle.std.specs.Prelude.{◌≡◌, ◌≢◌, ◌↔◌, true, false, IfErr, IsErrOf, OnErr, OnOk};
ghost use Rattle.command_io.specs.FaultTexts.{IsReported};
ghost use Rattle.command_io.specs.Printing.{IsCauseOrUnread, Prints, ReportsFault};
ghost use Rattle.trace_text.specs.Commands.{IsTraceText, TraceTextFails};

use crate::text::text_of_trace;
use command_io::{DONE, Fault, print, report_fault};
use link::{LinkRead, LinkWrite};
use std::alloc::Global;
use std::io::Write;
use trace_commands::trace_of;
use trace_file::TraceError;

/// Reads a trace and prints its text. Returns the exit status: 0 if the whole text is printed, otherwise that of the
/// fault that is reported on standard error. The whole text is made before its first byte is printed.
pub fn text_command<T: LinkRead, W: LinkWrite, E: Write>(
    alloc: Global,
    trace: &mut T,
    out: &mut W,
    err: &mut E,
) -> u8
    requires reads { T.has_failed trace.old ≡ false }
    requires works { W.has_failed out.old ≡ false }
    ensures printed { result ≡ 0 →
        Prints (IsTraceText (T.remaining trace.old)) (W.contents out.old) (W.contents out.new) }
    ensures fault { result ≢ 0 → ReportsFault W.has_failed Fault.Link ⊥
        (IsCauseOrUnread (TraceTextFails (T.remaining trace.old) (W.contents out.old) (W.contents out.new))
        (Fault.Trace TraceError.Link) (T.has_failed trace.new))
        (IsReported (E.contents err.old) (E.contents err.new)) out.old out.new result }
    ensures failed { W.has_failed out.new ≡ true → result ≡ 3 }
    ensures unread { T.has_failed trace.new ≡ true → result ≡ 3 }
    ensures quiet { result ≡ 0 → err.new ≡ err.old }
{
    match execute(alloc, trace, out) {
        Ok(()) => DONE,
        Err(fault) => report_fault(fault, err),
    }
}

/// Executes the command.
fn execute<T: LinkRead, W: LinkWrite>(
    alloc: Global,
    trace: &mut T,
    out: &mut W,
) -> Result<(), Fault>
    requires reads { T.has_failed trace.old ≡ false }
    requires works { W.has_failed out.old ≡ false }
    ensures unread { IsErrOf result (Fault.Trace TraceError.Link) ↔ (T.has_failed trace.new ≡ true) }
    ensures failed { IsErrOf result Fault.Link ↔ (W.has_failed out.new ≡ true) }
    ensures printed { OnOk result (Prints (IsTraceText (T.remaining trace.old)) (W.contents out.old)
        (W.contents out.new)) }
    ensures fault { IfErr result (TraceTextFails (T.remaining trace.old) (W.contents out.old) (W.contents out.new)) }
    ensures silent { OnErr result (W.has_failed out.new ≡ false → out.new ≡ out.old) }
{
    let trace = trace_of(alloc, trace)?;
    let text = text_of_trace(alloc, &trace)?;
    print(out, text.as_str())
}
