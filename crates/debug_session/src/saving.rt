//! Saves the trace of a session after its end.

ghost use Rattle.std.specs.Prelude.{◌≡◌, false, is_err, IfErr, OnErr, OnOk};
ghost use Rattle.std.specs.Io.KnownBytes.{Appends};
ghost use Rattle.link.specs.Transfer.{AppendsPart};
ghost use Rattle.command_io.specs.ErrorOutputs.{errors_to};
ghost use Rattle.trace_file.specs.Traces.{trace_bytes, trace_of};
ghost use Rattle.run_reports.specs.RunReports.{IsPartSaved, IsSaved, IsWorking};
ghost use Rattle.debug_session.specs.Conversations.{IsServed};
ghost use Rattle.debug_session.specs.Sessions.{IsBroken, IsEnding, session_result, trace_link};

use crate::end::debug_end;
use crate::laws::log_has_trace;
use crate::session_end::SessionEnd;
use command_io::{Fault, report_fault};
use link::LinkWrite;
use machine_log::Logged;
use std::io::Write;
use trace_file::{TraceError, write_trace};

/// Writes the trace of a session if one is wanted. Then reports how the session ended or, if the writer failed, that
/// the trace could not be written. Returns the exit status.
pub(crate) fn finish<T: LinkWrite, E: Write>(
    end: SessionEnd,
    log: &Logged,
    trace: &mut Option<T>,
    err: &mut E,
) -> u8
    requires works { IsWorking T.has_failed trace.old }
    ensures { IsEnding (session_result log.now.machine.config end log.now)
        (trace_link T.has_failed T.contents trace.old trace.new) (errors_to E.contents err.old err.new) result }
{
    match save_session(end, log, trace) {
        Ok(()) => debug_end(end, log.machine(), err),
        Err(fault) => report_fault(fault, err),
    }
}

/// Writes the steps of a session's log as a trace, if one is wanted and the session began.
///
/// # Errors
///
/// [`Fault::Trace`] with [`TraceError::Link`] exactly if the writer fails. Then a beginning of the trace is written.
fn save_session<T: LinkWrite>(
    end: SessionEnd,
    log: &Logged,
    trace: &mut Option<T>,
) -> Result<(), Fault>
    requires works { IsWorking T.has_failed trace.old }
    ensures working { OnOk result (IsWorking T.has_failed trace.new) }
    ensures saved { OnOk result (IsServed end (IsSaved T.contents trace.old trace.new
        (trace_bytes (trace_of log.now.machine.config log.now.steps))) (trace.new ≡ trace.old)) }
    ensures link { IfErr result (λ fault. fault ≡ Fault.Trace TraceError.Link) }
    ensures broken { OnErr result (IsBroken T.has_failed trace.new) }
    ensures cut { OnErr result (IsServed end (IsPartSaved T.contents trace.old trace.new
        (trace_bytes (trace_of log.now.machine.config log.now.steps))) ⊥) }
{
    match end {
        SessionEnd::Quit
        | SessionEnd::EndOfInput
        | SessionEnd::ReadFailed
        | SessionEnd::WriteFailed => save(log, trace),
        // The drain that begins a session was refused. Nothing was read, and there is nothing to save.
        SessionEnd::Memory | SessionEnd::TraceFull => Ok(()),
    }
}

/// Writes the trace of a log if one is wanted.
fn save<T: LinkWrite>(log: &Logged, trace: &mut Option<T>) -> Result<(), Fault>
    requires works { IsWorking T.has_failed trace.old }
    ensures working { OnOk result (IsWorking T.has_failed trace.new) }
    ensures saved { OnOk result (IsSaved T.contents trace.old trace.new
        (trace_bytes (trace_of log.now.machine.config log.now.steps))) }
    ensures link { IfErr result (λ fault. fault ≡ Fault.Trace TraceError.Link) }
    ensures broken { OnErr result (IsBroken T.has_failed trace.new) }
    ensures cut { OnErr result (IsPartSaved T.contents trace.old trace.new
        (trace_bytes (trace_of log.now.machine.config log.now.steps))) }
{
    match trace {
        None => Ok(()),
        Some(writer) => match write_log(log, writer) {
            Ok(()) => Ok(()),
            Err(_) => Err(Fault::Trace(TraceError::Link)),
        },
    }
}

/// Writes the trace of a log.
fn write_log<T: LinkWrite>(log: &Logged, writer: &mut T) -> Result<(), TraceError>
    requires works { T.has_failed writer.old ≡ false }
    ensures failed { T.has_failed writer.new ≡ is_err result }
    ensures ok { OnOk result (Appends (T.contents writer.old) (T.contents writer.new)
        (trace_bytes (trace_of log.now.machine.config log.now.steps))) }
    ensures err { OnErr result (AppendsPart (T.contents writer.old) (T.contents writer.new)
        (trace_bytes (trace_of log.now.machine.config log.now.steps))) }
{
    log_has_trace(log);
    write_trace(writer, &log.machine().config(), log.steps())
}
