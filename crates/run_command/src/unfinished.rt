//! The report of a run that its budget has ended.

ghost use Rattle.std.specs.Prelude.{◌≡◌, ◌↔◌, ◌⊎◌, true, false};
ghost use Rattle.run_reports.specs.RunReports.{CanBeReported, IsWorking, trace_output};
ghost use Rattle.command_io.specs.Links.{output};
ghost use Rattle.run_command.specs.UnfinishedRuns.{UnfinishedLogEnds, is_reported};

use command_io::Fault;
use link::LinkWrite;
use machine_log::Logged;
use run_reports::print_run;
use schedules::SweepEnd;
use std::alloc::Global;

/// Writes the trace of the log of an unfinished run, if one is asked for, and then prints the log's report. Returns the
/// fault to report: [`Fault::Budget`] if all is printed, otherwise what [`print_run`] fails with.
pub(crate) fn print_unfinished<T: LinkWrite, W: LinkWrite>(
    alloc: Global,
    log: &Logged,
    trace: &mut Option<T>,
    out: &mut W,
) -> Fault
    requires ready { CanBeReported log.now }
    requires works { IsWorking T.has_failed trace.old }
    requires prints { W.has_failed out.old ≡ false }
    ensures fault { UnfinishedLogEnds log.now (trace_output T.contents trace.old trace.new)
        (output W.contents W.has_failed out.old out.new) result }
    ensures failed { (result ≡ Fault.Link) ↔ (W.has_failed out.new ≡ true) }
    ensures silent { (W.has_failed out.new ≡ false → out.new ≡ out.old) ⊎ (result ≡ Fault.Budget) }
{
    match print_run(alloc, log, None, trace, out) {
        Ok(_) => Fault::Budget,
        Err(fault) => fault,
    }
}

/// Whether a run with this end is reported: one that is over always is, an unfinished one if `unfinished` says so.
pub(crate) fn is_reported(end: SweepEnd, unfinished: bool) -> bool
    ensures { result ≡ is_reported unfinished end }
{
    match end {
        SweepEnd::Over => true,
        SweepEnd::Budget => unfinished,
    }
}
