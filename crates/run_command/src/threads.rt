//! `ultra run` on threads: from the bytes of an image to the report of its run.

ghost use Rattle.std.specs.Prelude.{◌≡◌, ◌≤◌, ◌↔◌, ◌⊎◌, true, false, IfOk, IfErr, IsErrOf};
ghost use Rattle.run_reports.specs.RunReports.{IsWorking, PrintsRun, trace_output};
ghost use Rattle.command_io.specs.FaultTexts.{IsReported};
ghost use Rattle.command_io.specs.Links.{input, output};
ghost use Rattle.command_io.specs.Printing.{ReportsCause};
ghost use Rattle.run_command.specs.ThreadRuns.{on_threads, runs_on_threads, threaded_run};
ghost use Rattle.run_command.specs.UnfinishedRuns.{IsSilentBut, PrintsUnfinished, RunCommandEnds, RunsEndIn};

use crate::run::{RunEnd, drained, run_to_log};
use crate::unfinished::print_unfinished;
use command_io::{Fault, report_outcome};
use elf_image::ImageError;
use flat_machine::Config;
use link::{LinkRead, LinkWrite};
use processor_threads::Gate;
use run_reports::print_run;
use std::alloc::Global;
use std::io::Write;
use std::sync::Wait;
use std::thread::Threads;

/// Reads an image, runs it on a machine of this size with each processor on its own thread, and prints the report. The
/// run ends when all processors have stopped. Each thread has `budget` rounds: in each round it takes a turn of its
/// processor, or tries to send the byte that it holds, and then asks for a step of the network, which its arbiter
/// picks. The arbiters begin with `start`. If a trace is asked for, it is written before the report.
///
/// The threads race, so another run may log other steps. The steps of this run have a serial order, which explains the
/// report. The console column has the bytes that the threads have sent. The threads pass the gate before their turns,
/// and report their progress to it; nothing here depends on what it does.
///
/// Returns the exit status: 0 if the report is printed, 1 if it is printed and a fault has stopped a processor, else
/// that of the fault reported on standard error. Faults are checked in this order: of the image, of the machine's size,
/// of the run, of the trace, of the report. A run has a fault if it is out of memory, if its log is full, or if a
/// thread uses up its budget or fails to start.
///
/// With `unfinished`, a run that a thread's budget has ended is drained and reported, too, and then the fault of the
/// budget is reported, if there was no other.
pub fn threaded_run_command<
    F: LinkRead,
    T: LinkWrite,
    W: LinkWrite,
    E: Write,
    G: Gate + Sync,
    R: Threads + Wait + Sync,
>(
    rt: &R,
    alloc: Global,
    file: &mut F,
    config: Config,
    start: u32,
    gate: &G,
    budget: u32,
    unfinished: bool,
    trace: &mut Option<T>,
    out: &mut W,
    err: &mut E,
) -> u8
    requires reads { F.has_failed file.old ≡ false }
    requires works { IsWorking T.has_failed trace.old }
    requires prints { W.has_failed out.old ≡ false }
    ensures reported { result ≤ 1 →
        PrintsRun (on_threads (threaded_run config (input F.remaining F.has_failed file.old file.new)))
        (trace_output T.contents trace.old trace.new) (output W.contents W.has_failed out.old out.new) result }
    ensures fault { 2 ≤ result → ReportsCause (RunCommandEnds
        (runs_on_threads unfinished (threaded_run config (input F.remaining F.has_failed file.old file.new)))
        (trace_output T.contents trace.old trace.new) (output W.contents W.has_failed out.old out.new))
        (IsReported (E.contents err.old) (E.contents err.new)) result }
    ensures unread { F.has_failed file.new ≡ true → result ≡ 3 }
    ensures failed { W.has_failed out.new ≡ true → result ≡ 3 }
    ensures silent { 2 ≤ result → W.has_failed out.new ≡ false → (out.new ≡ out.old) ⊎ PrintsUnfinished
        (runs_on_threads unfinished (threaded_run config (input F.remaining F.has_failed file.old file.new)))
        (trace_output T.contents trace.old trace.new) (output W.contents W.has_failed out.old out.new)
        (IsReported (E.contents err.old) (E.contents err.new)) }
    ensures quiet { result ≤ 1 → err.new ≡ err.old }
{
    let outcome = execute(
        rt, alloc, file, config, start, gate, budget, unfinished, trace, out,
    );
    report_outcome(outcome, err)
}

/// Executes the command.
fn execute<F: LinkRead, T: LinkWrite, W: LinkWrite, G: Gate + Sync, R: Threads + Wait + Sync>(
    rt: &R,
    alloc: Global,
    file: &mut F,
    config: Config,
    start: u32,
    gate: &G,
    budget: u32,
    unfinished: bool,
    trace: &mut Option<T>,
    out: &mut W,
) -> Result<u8, Fault>
    requires reads { F.has_failed file.old ≡ false }
    requires works { IsWorking T.has_failed trace.old }
    requires prints { W.has_failed out.old ≡ false }
    ensures reported { IfOk result
        (PrintsRun (on_threads (threaded_run config (input F.remaining F.has_failed file.old file.new)))
        (trace_output T.contents trace.old trace.new) (output W.contents W.has_failed out.old out.new)) }
    ensures fault { IfErr result (RunsEndIn
        (runs_on_threads unfinished (threaded_run config (input F.remaining F.has_failed file.old file.new)))
        (trace_output T.contents trace.old trace.new) (output W.contents W.has_failed out.old out.new)) }
    ensures unread { IsErrOf result (Fault.Image ImageError.Link) ↔ (F.has_failed file.new ≡ true) }
    ensures failed { IsErrOf result Fault.Link ↔ (W.has_failed out.new ≡ true) }
    ensures low { IfOk result (λ status. status ≤ 1) }
    ensures silent { IfErr result (IsSilentBut unfinished (W.has_failed out.new ≡ false → out.new ≡ out.old)) }
{
    let RunEnd { log, consoles } = run_to_log(rt, alloc, file, config, start, gate, budget)?;
    match consoles {
        Some(consoles) => print_run(alloc, &log, Some(consoles.as_slice()), trace, out),
        None if unfinished => {
            let log = drained(log)?;
            Err(print_unfinished(alloc, &log, trace, out))
        }
        None => Err(Fault::Budget),
    }
}
