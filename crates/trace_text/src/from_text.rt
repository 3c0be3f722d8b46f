//! `ultra steps`: from the bytes of a text to those of a trace.

ghost use Rattle.std.specs.Prelude.{◌≡◌, ◌≢◌, ◌↔◌, Ok, true, false, is_err, IfErr, IfOk, IsErrOf, OnErr, OnOk};
ghost use Rattle.std.specs.Io.KnownBytes.{Appends};
ghost use Rattle.link.specs.Transfer.{AppendsPart};
ghost use Rattle.trace_file.specs.Traces.{trace_bytes};
ghost use Rattle.command_io.specs.Printing.{IsCauseOrUnread, Prints, ReportsRefusal};
ghost use Rattle.trace_text.specs.Commands.{AreTraceBytes, IsTextRefusal, StepsFail};
ghost use Rattle.trace_text.specs.Steps.{trace_in};
ghost use Rattle.trace_text.specs.Refusals.{IsReportedAs, status_of};

use crate::fault::TextError;
use crate::input::read_text;
use crate::read::trace_in;
use crate::refusal::{Refusal, report};
use crate::schedule::Schedule;
use command_io::{DONE, Fault};
use link::{LinkRead, LinkWrite};
use std::alloc::Global;
use std::io::Write;
use trace_file::{TraceError, write_trace};

/// Reads a text, and writes the trace that it says. Returns the exit status: 0 if the whole trace is written, otherwise
/// that of the refusal that is reported on standard error. Nothing of the trace is written before the whole text is
/// read.
pub fn steps_command<R: LinkRead, W: LinkWrite, E: Write>(
    alloc: Global,
    file: &mut R,
    out: &mut W,
    err: &mut E,
) -> u8
    requires reads { R.has_failed file.old ≡ false }
    requires works { W.has_failed out.old ≡ false }
    ensures written { result ≡ 0 →
        Prints (AreTraceBytes (R.remaining file.old)) (W.contents out.old) (W.contents out.new) }
    ensures fault { result ≢ 0 → ReportsRefusal status_of
        (IsCauseOrUnread (StepsFail (R.remaining file.old) (W.contents out.old) (W.contents out.new))
        (Refusal.Fault Fault.Link) (R.has_failed file.new))
        (IsReportedAs (E.contents err.old) (E.contents err.new)) result }
    ensures failed { W.has_failed out.new ≡ true → result ≡ 3 }
    ensures unread { R.has_failed file.new ≡ true → result ≡ 3 }
    ensures silent { result ≢ 0 → W.has_failed out.new ≡ false → out.new ≡ out.old }
    ensures quiet { result ≡ 0 → err.new ≡ err.old }
{
    match execute(alloc, file, out) {
        Ok(()) => DONE,
        Err(refusal) => report(refusal, err),
    }
}

/// Executes the command.
fn execute<R: LinkRead, W: LinkWrite>(
    alloc: Global,
    file: &mut R,
    out: &mut W,
) -> Result<(), Refusal>
    requires reads { R.has_failed file.old ≡ false }
    requires works { W.has_failed out.old ≡ false }
    ensures unread { IsErrOf result (Refusal.Fault Fault.Link) ↔ (R.has_failed file.new ≡ true) }
    ensures failed { IsErrOf result (Refusal.Fault (Fault.Trace TraceError.Link)) ↔ (W.has_failed out.new ≡ true) }
    ensures written { OnOk result (Prints (AreTraceBytes (R.remaining file.old)) (W.contents out.old)
        (W.contents out.new)) }
    ensures fault { IfErr result (StepsFail (R.remaining file.old) (W.contents out.old) (W.contents out.new)) }
    ensures silent { OnErr result (W.has_failed out.new ≡ false → out.new ≡ out.old) }
{
    let text = read_text(alloc, file)?;
    let trace = schedule_of(alloc, text.as_slice())?;
    write_schedule(&trace, out)
}

/// The trace that a text says.
fn schedule_of(alloc: Global, text: &[u8]) -> Result<Schedule, Refusal>
    ensures said { IfOk result (λ trace. trace_in text.now ≡ Ok trace) }
    ensures refused { IfErr result (IsTextRefusal text.now) }
{
    match trace_in(alloc, text) {
        Ok(trace) => Ok(trace),
        Err(TextError::Mistake(mistake)) => Err(Refusal::Mistake(mistake)),
        Err(TextError::Memory) => Err(Refusal::Fault(Fault::Memory)),
    }
}

/// Writes the trace.
fn write_schedule<W: LinkWrite>(trace: &Schedule, out: &mut W) -> Result<(), Refusal>
    requires works { W.has_failed out.old ≡ false }
    ensures failed { W.has_failed out.new ≡ is_err result }
    ensures written { OnOk result (Appends (W.contents out.old) (W.contents out.new) (trace_bytes trace.now)) }
    ensures begun { IfErr result (λ refusal. (refusal ≡ Refusal.Fault (Fault.Trace TraceError.Link))
        × AppendsPart (W.contents out.old) (W.contents out.new) (trace_bytes trace.now)) }
{
    match write_trace(out, &trace.config(1), trace.steps()) {
        Ok(()) => Ok(()),
        Err(_) => Err(Refusal::Fault(Fault::Trace(TraceError::Link))),
    }
}
