//! `ultra run --sweep --no-log`: from the bytes of an image to the report of its run, without a log.

ghost use Rattle.std.specs.Prelude.{◌≡◌, ◌≤◌, ◌↔◌, ◌⊎◌, true, false, IfOk, IfErr, IsErrOf, string_bytes};
ghost use Rattle.run_reports.specs.RunReports.{PrintsRun};
ghost use Rattle.command_io.specs.FaultTexts.{IsReported};
ghost use Rattle.command_io.specs.Links.{input, output};
ghost use Rattle.command_io.specs.Printing.{ReportsCause};
ghost use Rattle.run_command.specs.SweepRuns.{FailsBefore, IsCountedRun, IsNotCounted, IsSomeReport, ended_without_log};
ghost use Rattle.run_command.specs.SweepRuns.{most_unlogged, no_trace, runs_without_log, sweep_run, without_log};
ghost use Rattle.run_command.specs.UnfinishedRuns.{IsSilentBut, PrintsUnfinished, RunCommandEnds, RunsEndIn};
ghost use Rattle.run_command.specs.UnfinishedRuns.{is_reported};

use crate::counted::CountedMachine;
use crate::unfinished::is_reported;
use command_io::{Fault, Tally, image_of, machine_of, print, report_outcome};
use elf_image::ImageError;
use flat_machine::Config;
use link::{LinkRead, LinkWrite};
use machine_steps::{Machine, laws};
use run_reports::report_with_status;
use schedules::{SweepEnd, follow};
use std::alloc::Global;
use std::io::Write;

/// The most steps that a run without a log takes before its drain. A tally counts fewer than 2^32.
const MAX_UNLOGGED: u32 = 4_000_000_000;

/// Reads an image, runs it by the sweep on a machine of this size, and prints the report, as [`crate::run_command`]
/// does. It keeps no log of the steps, so that the run may take more of them, and it reports the machine itself. The
/// sweep ends if a fault stops a processor, if no processor runs, or after as many steps as the budget; then the
/// machine takes steps until no reference is open.
///
/// Returns the exit status: 0 if the report is printed, 1 if it is printed and a fault has stopped a processor, else
/// that of the fault reported on standard error. Faults are checked in this order: of the image, of the machine's size,
/// of the run, of the report.
///
/// With `unfinished`, a run that its budget has ended is reported like one that is over, and then the fault of the
/// budget is reported, if there was no other.
pub fn unlogged_run_command<R: LinkRead, W: LinkWrite, E: Write>(
    alloc: Global,
    file: &mut R,
    config: Config,
    budget: u32,
    unfinished: bool,
    out: &mut W,
    err: &mut E,
) -> u8
    requires reads { R.has_failed file.old ≡ false }
    requires prints { W.has_failed out.old ≡ false }
    ensures reported { result ≤ 1 → PrintsRun
        (without_log (sweep_run config budget (input R.remaining R.has_failed file.old file.new)))
        no_trace (output W.contents W.has_failed out.old out.new) result }
    ensures fault { 2 ≤ result → ReportsCause (RunCommandEnds
        (runs_without_log unfinished (sweep_run config budget (input R.remaining R.has_failed file.old file.new)))
        no_trace (output W.contents W.has_failed out.old out.new))
        (IsReported (E.contents err.old) (E.contents err.new)) result }
    ensures unread { R.has_failed file.new ≡ true → result ≡ 3 }
    ensures failed { W.has_failed out.new ≡ true → result ≡ 3 }
    ensures silent { 2 ≤ result → W.has_failed out.new ≡ false → (out.new ≡ out.old) ⊎ PrintsUnfinished
        (runs_without_log unfinished (sweep_run config budget (input R.remaining R.has_failed file.old file.new)))
        no_trace (output W.contents W.has_failed out.old out.new)
        (IsReported (E.contents err.old) (E.contents err.new)) }
    ensures quiet { result ≤ 1 → err.new ≡ err.old }
{
    let outcome = execute(alloc, file, config, budget, unfinished, out);
    report_outcome(outcome, err)
}

/// Executes the command.
fn execute<R: LinkRead, W: LinkWrite>(
    alloc: Global,
    file: &mut R,
    config: Config,
    budget: u32,
    unfinished: bool,
    out: &mut W,
) -> Result<u8, Fault>
    requires reads { R.has_failed file.old ≡ false }
    requires prints { W.has_failed out.old ≡ false }
    ensures reported { IfOk result (PrintsRun
        (without_log (sweep_run config budget (input R.remaining R.has_failed file.old file.new)))
        no_trace (output W.contents W.has_failed out.old out.new)) }
    ensures fault { IfErr result (RunsEndIn
        (runs_without_log unfinished (sweep_run config budget (input R.remaining R.has_failed file.old file.new)))
        no_trace (output W.contents W.has_failed out.old out.new)) }
    ensures unread { IsErrOf result (Fault.Image ImageError.Link) ↔ (R.has_failed file.new ≡ true) }
    ensures failed { IsErrOf result Fault.Link ↔ (W.has_failed out.new ≡ true) }
    ensures low { IfOk result (λ status. status ≤ 1) }
    ensures silent { IfErr result (IsSilentBut unfinished (W.has_failed out.new ≡ false → out.new ≡ out.old)) }
{
    let (text, status, end) = report_run(alloc, file, config, budget, unfinished)?;
    print(out, text.as_str())?;
    match end {
        SweepEnd::Over => Ok(status),
        SweepEnd::Budget => Err(Fault::Budget),
    }
}

/// Runs the image, and returns the report of the run, its exit status and how it ended.
fn report_run<R: LinkRead>(
    alloc: Global,
    file: &mut R,
    config: Config,
    budget: u32,
    unfinished: bool,
) -> Result<(String, u8, SweepEnd), Fault>
    requires reads { R.has_failed file.old ≡ false }
    ensures reported { IfOk result (λ done. IsSomeReport
        (ended_without_log done.2 (sweep_run config budget (input R.remaining R.has_failed file.old file.new)))
        (string_bytes done.0) done.1) }
    ensures wanted { IfOk result (λ done. is_reported unfinished done.2 ≡ true) }
    ensures low { IfOk result (λ done. done.1 ≤ 1) }
    ensures refused { IfErr result (FailsBefore unfinished (most_unlogged budget)
        (sweep_run config budget (input R.remaining R.has_failed file.old file.new))) }
    ensures unread { IsErrOf result (Fault.Image ImageError.Link) ↔ (R.has_failed file.new ≡ true) }
{
    let image = image_of(alloc, file, &config)?;
    let machine = machine_of(alloc, image, config)?;
    laws::machine_is_well_formed(&machine);
    let (machine, tally, end) = run_to_end(alloc, machine, budget, unfinished)?;
    let (text, status) = report_with_status(alloc, &machine, &tally, None)?;
    Ok((text, status, end))
}

/// Follows the sweep until it is over or the budget is used up, and drains the machine. Returns it with what its
/// processors have shown, and how the sweep ended.
///
/// # Errors
///
/// [`Fault::Budget`] if the budget is used up before the sweep is over and an unfinished run is not to be reported,
/// otherwise [`Fault::Memory`] if there was no memory to count what processors showed.
fn run_to_end(
    alloc: Global,
    machine: Machine,
    budget: u32,
    unfinished: bool,
) -> Result<(Machine, Tally, SweepEnd), Fault>
    ensures counted { IfOk result (λ done. IsCountedRun (most_unlogged budget) machine done.2 done.0 done.1) }
    ensures wanted { IfOk result (λ done. is_reported unfinished done.2 ≡ true) }
    ensures refused { IfErr result (IsNotCounted unfinished (most_unlogged budget) machine) }
{
    let mut counted = CountedMachine::new(alloc, machine);
    let most = budget.min(MAX_UNLOGGED);
    let end = follow(&mut counted, most as usize);
    let (machine, tally) = counted.drained();
    if !is_reported(end, unfinished) {
        return Err(Fault::Budget);
    }
    match tally {
        Some(tally) => Ok((machine, tally, end)),
        None => Err(Fault::Memory),
    }
}
