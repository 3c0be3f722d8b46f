//! Printing the report of a log, and writing its trace.

ghost use Rattle.std.specs.Prelude.{◌≡◌, ◌≤◌, ◌↔◌, true, false, IfOk, IfErr, IfSome, IsErrOf, OnErr, map, string_bytes};
ghost use Rattle.command_io.specs.Links.{output};
ghost use Rattle.run_reports.specs.Causes.{LogReportFails};
ghost use Rattle.run_reports.specs.RunReports.{CanBeReported, IsReportOf, IsWorking, PrintsLog, trace_output};
ghost use Rattle.run_reports.specs.CountedReplays.{AreConsoles};

use crate::output::save;
use crate::reporting::report_with_status;
use crate::taking::replay_counted;
use command_io::{Fault, machine_of_copy, print};
use link::LinkWrite;
use machine_log::Logged;
use machine_steps::laws;
use std::alloc::Global;

/// Writes the trace of a log, if one is asked for, and then prints the log's report. The bytes of the consoles may come
/// from whoever received them. Returns the exit status.
///
/// # Errors
///
/// [`Fault::Trace`] if the trace cannot be written, [`Fault::Link`] exactly if the report cannot be printed, and
/// [`Fault::Memory`].
pub fn print_run<T: LinkWrite, W: LinkWrite>(
    alloc: Global,
    log: &Logged,
    consoles: Option<&[Vec<u8>]>,
    trace: &mut Option<T>,
    out: &mut W,
) -> Result<u8, Fault>
    requires ready { CanBeReported log.now }
    requires heard { IfSome consoles (λ cs. AreConsoles log.now.opening log.now.steps (map (λ v. v.items) cs.now)) }
    requires works { IsWorking T.has_failed trace.old }
    requires prints { W.has_failed out.old ≡ false }
    ensures failed { IsErrOf result Fault.Link ↔ (W.has_failed out.new ≡ true) }
    ensures reported { IfOk result (PrintsLog log.now (trace_output T.contents trace.old trace.new)
        (output W.contents W.has_failed out.old out.new)) }
    ensures low { IfOk result (λ status. status ≤ 1) }
    ensures fault { IfErr result (LogReportFails log.now (trace_output T.contents trace.old trace.new)
        (output W.contents W.has_failed out.old out.new)) }
    ensures silent { OnErr result (W.has_failed out.new ≡ false → out.new ≡ out.old) }
{
    let (text, status) = log_report(alloc, log, consoles)?;
    save(trace, &log.machine().config(), log.steps())?;
    print(out, text.as_str())?;
    Ok(status)
}

/// The report of a log, and its exit status. A second machine opens on a copy of the image and takes the steps again.
/// None of them stalls, since the log's machine opened on the same image.
fn log_report(
    alloc: Global,
    log: &Logged,
    consoles: Option<&[Vec<u8>]>,
) -> Result<(String, u8), Fault>
    requires ready { CanBeReported log.now }
    requires heard { IfSome consoles (λ cs. AreConsoles log.now.opening log.now.steps (map (λ v. v.items) cs.now)) }
    ensures report { IfOk result (λ done. IsReportOf log.now.machine.config log.now.machine.image log.now.steps
        (string_bytes done.0) done.1) }
    ensures low { IfOk result (λ done. done.1 ≤ 1) }
    ensures refused { IfErr result (λ fault. fault ≡ Fault.Memory) }
{
    let machine = log.machine();
    let mut again = machine_of_copy(alloc, machine.image(), machine.config())?;
    laws::machine_is_well_formed(&again);
    let tally = replay_counted(alloc, &mut again, log.steps())?;
    Ok(report_with_status(alloc, &again, &tally, consoles)?)
}
