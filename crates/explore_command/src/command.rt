//! The command `ultra explore`.

ghost use Rattle.std.specs.Prelude.{◌≡◌, ◌≤◌, ◌↔◌, ◌⊎◌, true, false, IfOk, IfErr, IsErrOf, OnErr};
ghost use Rattle.command_io.specs.Links.{input, output};
ghost use Rattle.command_io.specs.Printing.{Prints, ReportsRefusal};
ghost use Rattle.run_reports.specs.RunReports.{IsWorking};
ghost use Rattle.explore_command.specs.Explorations.{PrintsResults, exploration_of};
ghost use Rattle.explore_command.specs.Parts.{ExploreFails, IsRefused, PrintsPart};
ghost use Rattle.run_reports.specs.RunReports.{trace_output};
ghost use Rattle.witness_traces.specs.Reports.{IsReportedAs, status_of};

use crate::report::ReportEnd;
use crate::searching::explore_image;
use command_io::{Fault, image_of, print};
use elf_image::ImageError;
use exploration::SearchObserver;
use flat_machine::Config;
use link::{LinkRead, LinkWrite};
use observed_results::ObservedWords;
use state_conditions::Condition;
use std::alloc::Global;
use std::io::Write;
use witness_traces::{Refused, tell_refused};

/// What a search is asked for.
#[derive(Clone, Copy, Drop)]
pub struct Asked<'a> {
    /// The number of states between references to shared words at which the search gives up.
    pub limit: u32,
    /// Whether each result is listed by itself, so that processors that are alike are not exchanged.
    pub each: bool,
    /// Whether it is asked if every fair schedule ends. If so, processors that are alike are not exchanged.
    pub fair: bool,
    /// The number of the result to which the trace leads, counted from 1, or 0 for a state from which no end can be
    /// reached. If there is no number, the trace follows the lasso of a fair schedule that never ends, once round its
    /// cycle. Ignored if no trace is asked for.
    pub witness: Option<u32>,
    /// The shared words by which results are observed, or None for all words. Results are then printed without the
    /// other words, and those that are the same without them are one result.
    pub observed: Option<&'a ObservedWords>,
    /// The condition that a result has to satisfy to be printed, or None if all are. Ignored if no words are chosen.
    pub filter: Option<&'a Condition>,
}

/// Reads an image, finds every final result that its program can have on a machine of this size, and prints them, up to
/// exchanges of processors that are alike. A final result is what is left after steps of the machine after which no
/// processor runs. If words are chosen, prints the different observed parts of results in place of the results; the
/// trace then leads to the first result that has the wanted part. With a condition, prints only the parts of results
/// that satisfy it, with the numbers that they have among all, and how many they are. Also prints which processors can
/// be exchanged, and whether schedules end. The observer sees the progress of the search. If a trace is asked for, that
/// of a way to the result with the wanted number, or that of a lasso, is written first.
///
/// If the search gives up because of too many states, or because the observer stops it, the results found so far are
/// printed, and said to be incomplete.
///
/// Returns the exit status: 0 if all results are printed; 1 if they are printed, and in one of them a fault has stopped
/// a processor, or there is a state from which no end can be reached; else that of the fault reported on standard
/// error. Faults are checked in this order: of the image, of the machine's size, of the search, of the witness or the
/// lasso, of the trace, of standard output.
pub fn explore_command<R: LinkRead, T: LinkWrite, G: SearchObserver, W: LinkWrite, E: Write>(
    alloc: Global,
    file: &mut R,
    config: Config,
    asked: Asked<'_>,
    trace: &mut Option<T>,
    observer: &mut G,
    out: &mut W,
    err: &mut E,
) -> u8
    requires reads { R.has_failed file.old ≡ false }
    requires works { IsWorking T.has_failed trace.old }
    requires prints { W.has_failed out.old ≡ false }
    ensures printed { result ≤ 1 →
        Prints (PrintsResults (exploration_of config asked.entry (input R.remaining R.has_failed file.old file.new))
        (trace_output T.contents trace.old trace.new) result) (W.contents out.old) (W.contents out.new) }
    ensures fault { 2 ≤ result → ReportsRefusal status_of
        (ExploreFails (exploration_of config asked.entry (input R.remaining R.has_failed file.old file.new))
        (trace_output T.contents trace.old trace.new) (output W.contents W.has_failed out.old out.new))
        (IsReportedAs asked.entry.witness (E.contents err.old) (E.contents err.new)) result }
    ensures failed { W.has_failed out.new ≡ true → result ≡ 3 }
    ensures unread { R.has_failed file.new ≡ true → result ≡ 3 }
    ensures silent { 2 ≤ result → W.has_failed out.new ≡ false → (out.new ≡ out.old)
        ⊎ Prints (PrintsPart (exploration_of config asked.entry (input R.remaining R.has_failed file.old file.new)))
        (W.contents out.old) (W.contents out.new) }
    ensures quiet { result ≤ 1 → err.new ≡ err.old }
{
    match execute(alloc, file, config, asked, trace, observer, out) {
        Ok(status) => status,
        Err(refused) => tell_refused(refused, asked.witness, err),
    }
}

/// Executes the command.
fn execute<R: LinkRead, T: LinkWrite, G: SearchObserver, W: LinkWrite>(
    alloc: Global,
    file: &mut R,
    config: Config,
    asked: Asked<'_>,
    trace: &mut Option<T>,
    observer: &mut G,
    out: &mut W,
) -> Result<u8, Refused>
    requires reads { R.has_failed file.old ≡ false }
    requires works { IsWorking T.has_failed trace.old }
    requires prints { W.has_failed out.old ≡ false }
    ensures unread { IsErrOf result (Refused.Fault (Fault.Image ImageError.Link)) ↔ (R.has_failed file.new ≡ true) }
    ensures failed { IsErrOf result (Refused.Fault Fault.Link) ↔ (W.has_failed out.new ≡ true) }
    ensures printed { IfOk result (λ status.
        Prints (PrintsResults (exploration_of config asked.entry (input R.remaining R.has_failed file.old file.new))
        (trace_output T.contents trace.old trace.new) status) (W.contents out.old) (W.contents out.new)) }
    ensures low { IfOk result (λ status. status ≤ 1) }
    ensures fault { IfErr result
        (IsRefused (exploration_of config asked.entry (input R.remaining R.has_failed file.old file.new))
        (trace_output T.contents trace.old trace.new) (output W.contents W.has_failed out.old out.new)) }
    ensures silent { OnErr result (W.has_failed out.new ≡ false → (out.new ≡ out.old)
        ⊎ Prints (PrintsPart (exploration_of config asked.entry (input R.remaining R.has_failed file.old file.new)))
        (W.contents out.old) (W.contents out.new)) }
{
    let image = image_of(alloc, file, &config)?;
    let report = explore_image(alloc, image, config, asked, trace, observer)?;
    print(out, report.text.as_str())?;
    match report.end {
        ReportEnd::Complete(status) => Ok(status),
        ReportEnd::GivenUp(fault) => Err(Refused::Fault(fault)),
    }
}
