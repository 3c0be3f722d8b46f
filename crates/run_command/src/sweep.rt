//! `ultra run --sweep`: from the bytes of an image to the report of its run.

ghost use Rattle.std.specs.Prelude.{◌≡◌, ◌≤◌, ◌↔◌, ◌⊎◌, true, false, IfOk, IfErr, IsErrOf, OnOk};
ghost use Rattle.schedules.specs.Sweeps.{IsSwept, most_of};
ghost use Rattle.schedules.specs.trace_file.Traces.{HaveRecords};
ghost use Rattle.run_reports.specs.RunReports.{IsWorking, PrintsRun, trace_output};
ghost use Rattle.command_io.specs.FaultTexts.{IsReported};
ghost use Rattle.command_io.specs.Links.{input, output};
ghost use Rattle.command_io.specs.Printing.{ReportsCause};
ghost use Rattle.run_command.specs.SweepRuns.{FailsBefore, IsNotReported, IsSomeEndedRun, by_sweep, runs_by_sweep};
ghost use Rattle.run_command.specs.SweepRuns.{sweep_run};
ghost use Rattle.run_command.specs.UnfinishedRuns.{IsSilentBut, PrintsUnfinished, RunCommandEnds, RunsEndIn};
ghost use Rattle.run_command.specs.UnfinishedRuns.{is_reported};

use crate::unfinished::{is_reported, print_unfinished};
use command_io::{Fault, image_of, machine_of, report_outcome};
use elf_image::ImageError;
use flat_machine::Config;
use link::{LinkRead, LinkWrite};
use machine_log::{Logged, laws};
use run_reports::print_run;
use schedules::{SweepEnd, follow_sweep};
use std::alloc::Global;
use std::io::Write;

/// Reads an image, runs it by the sweep on a machine of this size, and prints the report. The sweep ends if a fault
/// stops a processor, if no processor runs, or if the log has as many steps as the budget; then the machine takes steps
/// until no reference is open. If a trace is asked for, it is written before the report.
///
/// Returns the exit status: 0 if the report is printed, 1 if it is printed and a fault has stopped a processor, else
/// that of the fault reported on standard error. Faults are checked in this order: of the image, of the machine's size,
/// of the run, of the trace, of the report.
///
/// With `unfinished`, a run that its budget has ended is reported like one that is over, and then the fault of the
/// budget is reported, if there was no other.
pub fn run_command<R: LinkRead, T: LinkWrite, W: LinkWrite, E: Write>(
    alloc: Global,
    file: &mut R,
    config: Config,
    budget: u32,
    unfinished: bool,
    trace: &mut Option<T>,
    out: &mut W,
    err: &mut E,
) -> u8
    requires reads { R.has_failed file.old ≡ false }
    requires works { IsWorking T.has_failed trace.old }
    requires prints { W.has_failed out.old ≡ false }
    ensures reported { result ≤ 1 → PrintsRun
        (by_sweep (sweep_run config budget (input R.remaining R.has_failed file.old file.new)))
        (trace_output T.contents trace.old trace.new) (output W.contents W.has_failed out.old out.new) result }
    ensures fault { 2 ≤ result → ReportsCause (RunCommandEnds
        (runs_by_sweep unfinished (sweep_run config budget (input R.remaining R.has_failed file.old file.new)))
        (trace_output T.contents trace.old trace.new) (output W.contents W.has_failed out.old out.new))
        (IsReported (E.contents err.old) (E.contents err.new)) result }
    ensures unread { R.has_failed file.new ≡ true → result ≡ 3 }
    ensures failed { W.has_failed out.new ≡ true → result ≡ 3 }
    ensures silent { 2 ≤ result → W.has_failed out.new ≡ false → (out.new ≡ out.old) ⊎ PrintsUnfinished
        (runs_by_sweep unfinished (sweep_run config budget (input R.remaining R.has_failed file.old file.new)))
        (trace_output T.contents trace.old trace.new) (output W.contents W.has_failed out.old out.new)
        (IsReported (E.contents err.old) (E.contents err.new)) }
    ensures quiet { result ≤ 1 → err.new ≡ err.old }
{
    let outcome = execute(alloc, file, config, budget, unfinished, trace, out);
    report_outcome(outcome, err)
}

/// Executes the command.
fn execute<R: LinkRead, T: LinkWrite, W: LinkWrite>(
    alloc: Global,
    file: &mut R,
    config: Config,
    budget: u32,
    unfinished: bool,
    trace: &mut Option<T>,
    out: &mut W,
) -> Result<u8, Fault>
    requires reads { R.has_failed file.old ≡ false }
    requires works { IsWorking T.has_failed trace.old }
    requires prints { W.has_failed out.old ≡ false }
    ensures reported { IfOk result (PrintsRun
        (by_sweep (sweep_run config budget (input R.remaining R.has_failed file.old file.new)))
        (trace_output T.contents trace.old trace.new) (output W.contents W.has_failed out.old out.new)) }
    ensures fault { IfErr result (RunsEndIn
        (runs_by_sweep unfinished (sweep_run config budget (input R.remaining R.has_failed file.old file.new)))
        (trace_output T.contents trace.old trace.new) (output W.contents W.has_failed out.old out.new)) }
    ensures unread { IsErrOf result (Fault.Image ImageError.Link) ↔ (R.has_failed file.new ≡ true) }
    ensures failed { IsErrOf result Fault.Link ↔ (W.has_failed out.new ≡ true) }
    ensures low { IfOk result (λ status. status ≤ 1) }
    ensures silent { IfErr result (IsSilentBut unfinished (W.has_failed out.new ≡ false → out.new ≡ out.old)) }
{
    let (log, end) = run_to_log(alloc, file, config, budget, unfinished)?;
    match end {
        SweepEnd::Over => print_run(alloc, &log, None, trace, out),
        SweepEnd::Budget => Err(print_unfinished(alloc, &log, trace, out)),
    }
}

/// Runs the image, and returns the log of the run and how it ended.
///
/// # Errors
///
/// [`Fault::Image`] if the image is refused or unread, [`Fault::Size`] if the size is out of limits, [`Fault::Budget`]
/// if the budget is used up before the run is over and an unfinished run is not to be reported, and [`Fault::Memory`].
fn run_to_log<R: LinkRead>(
    alloc: Global,
    file: &mut R,
    config: Config,
    budget: u32,
    unfinished: bool,
) -> Result<(Logged, SweepEnd), Fault>
    requires reads { R.has_failed file.old ≡ false }
    ensures run_to_log { IfOk result (λ done.
        IsSomeEndedRun (sweep_run config budget (input R.remaining R.has_failed file.old file.new)) done.1 done.0) }
    ensures wanted { IfOk result (λ done. is_reported unfinished done.1 ≡ true) }
    ensures refused { IfErr result (FailsBefore unfinished (most_of budget)
        (sweep_run config budget (input R.remaining R.has_failed file.old file.new))) }
    ensures unread { IsErrOf result (Fault.Image ImageError.Link) ↔ (R.has_failed file.new ≡ true) }
{
    let image = image_of(alloc, file, &config)?;
    let mut log = Logged::new(alloc, machine_of(alloc, image, config)?);
    let ended = run_to_end(&mut log, budget, unfinished);
    laws::log_is_well_formed(&log);
    match ended {
        Ok(end) => Ok((log, end)),
        Err(fault) => Err(fault),
    }
}

/// Follows the sweep until it is over or the budget is used up, and drains the machine. Returns how the sweep ended.
///
/// # Errors
///
/// [`Fault::Budget`] if the budget is used up before the sweep is over and an unfinished run is not to be reported, and
/// [`Fault::Memory`] if there is no memory for the log; then no step is taken.
fn run_to_end(log: &mut Logged, budget: u32, unfinished: bool) -> Result<SweepEnd, Fault>
    ensures swept { IfOk result (λ end. IsSwept (most_of budget) log.old end log.new) }
    ensures wanted { IfOk result (λ end. is_reported unfinished end ≡ true) }
    ensures records { OnOk result (HaveRecords log.old.machine.config.k log.old.steps →
        HaveRecords log.new.machine.config.k log.new.steps) }
    ensures refused { IfErr result (IsNotReported unfinished budget log.old log.new) }
{
    let Ok(end) = follow_sweep(log, budget) else {
        // A new log has room for the longest run, so it refuses only if out of memory.
        return Err(Fault::Memory);
    };
    if !is_reported(end, unfinished) {
        return Err(Fault::Budget);
    }
    Ok(end)
}
