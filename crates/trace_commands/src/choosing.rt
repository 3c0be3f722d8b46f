//! Commands that show a part of a trace: `ultra order`, `ultra story` and `ultra page`.

ghost use Rattle.std.specs.Prelude.{◌≡◌, ◌≤◌, ◌⊎◌, true, false, IfOk, IsErr, is_some};
ghost use Rattle.trace_file.specs.Traces.{IsTrace, config_of};
ghost use Rattle.command_io.specs.FaultTexts.{IsReported};
ghost use Rattle.command_io.specs.Links.{Input, failed_of, input, opened_input, output};
ghost use Rattle.command_io.specs.Printing.{ReportsCause};
ghost use Rattle.trace_commands.specs.TraceReports.{IsTraceOf, PrintsTraceReport, trace_input};
ghost use Rattle.trace_commands.specs.Causes.{TraceCommandFails};
ghost use Rattle.trace_commands.specs.Choices.{RefusesTrace, UnlessRefused};

use crate::input::trace_of;
use crate::trace_report::{TraceReport, print_trace};
use command_io::{REFUSED, report_fault, report_outcome};
use flat_machine::Config;
use link::{LinkRead, LinkWrite};
use std::alloc::Global;
use std::fmt::Display;
use std::io;
use std::io::Write;
use steps::Step;
use trace_file::Trace;
use trace_lines::{Choice, Unknown};

/// What is asked for of a trace.
///
/// [`lines_command`] refuses a trace that has not what is asked for.
pub trait Selection {
    ghost use Rattle.trace_commands.specs.Choices.{Refusal};

    /// Why a trace is refused, in the words of the parser of command lines.
    type Refusal: Display + Drop;

    /// Whether steps on a machine of this size are refused.
    ghost refuses: { Self → Refusal };

    /// Why the steps on a machine of this size are refused, if they are.
    fn refusal(&self, config: Config, steps: &[Step]) -> Option<Self::Refusal>
        requires { config.k ≤ 6 }
        ensures { is_some result ≡ Self.refuses self.now config steps.now };
}

/// A choice is refused if its processor or its word is not there.
impl Selection for Choice {
    ghost use Rattle.trace_commands.specs.Choices.{names_nothing};

    type Refusal = Unknown;

    ghost refuses = { names_nothing };

    fn refusal(&self, config: Config, _steps: &[Step]) -> Option<Unknown> {
        self.unknown(config.processors(), config.shared_words)
    }
}

/// Reads a trace and an image, and prints what is selected of the trace's steps: an [`Order`](crate::order::Order) or a
/// [`Story`](crate::story::Story) with this choice, or a page of some of the steps. The machine has the trace's size
/// and this many shared words, and opens on the image.
///
/// Returns the exit status: that of the text if it is printed; 2 if the trace is refused, which standard error reports;
/// else that of the fault reported there. A fault of the trace comes before such a refusal, and all others come after
/// it, in the order of [`trace_command`](crate::trace_command).
pub fn lines_command<
    S: Selection,
    A: TraceReport,
    T: LinkRead,
    R: LinkRead,
    W: LinkWrite,
    E: Write,
>(
    alloc: Global,
    trace: &mut T,
    file: &mut io::Result<R>,
    shared_words: u32,
    selection: &S,
    trace_report: &A,
    out: &mut W,
    err: &mut E,
) -> u8
    requires reads { T.has_failed trace.old ≡ false }
    requires reads_image { IfOk file.old (λ reader. R.has_failed reader ≡ false) }
    requires prints { W.has_failed out.old ≡ false }
    ensures printed { result ≤ 1 → PrintsTraceReport
        (UnlessRefused (S.refuses selection.now) (A.reports trace_report.now))
        (trace_input (input T.remaining T.has_failed trace.old trace.new)
        (opened_input R.remaining R.has_failed file.old file.new) shared_words)
        (output W.contents W.has_failed out.old out.new) result }
    ensures fault { 2 ≤ result →
        (RefusesTrace (S.refuses selection.now) shared_words (T.remaining trace.old) × (result ≡ 2))
        ⊎ ReportsCause (TraceCommandFails (A.reports trace_report.now)
        (trace_input (input T.remaining T.has_failed trace.old trace.new)
        (opened_input R.remaining R.has_failed file.old file.new) shared_words)
        (output W.contents W.has_failed out.old out.new))
        (IsReported (E.contents err.old) (E.contents err.new)) result }
    ensures unread { T.has_failed trace.new ≡ true → result ≡ 3 }
    ensures unread_image { failed_of R.has_failed file.new ≡ true → result ≡ 3 }
    ensures unopened { IsErr file.old → 2 ≤ result }
    ensures failed { W.has_failed out.new ≡ true → result ≡ 3 }
    ensures silent { 2 ≤ result → W.has_failed out.new ≡ false → out.new ≡ out.old }
    ensures quiet { result ≤ 1 → err.new ≡ err.old }
{
    match trace_of(alloc, trace) {
        Ok(trace) => lines_of_trace(
            alloc,
            &trace,
            file,
            shared_words,
            selection,
            trace_report,
            out,
            err,
        ),
        Err(fault) => report_fault(fault, err),
    }
}

/// Prints what is selected of the steps of a trace.
fn lines_of_trace<S: Selection, A: TraceReport, R: LinkRead, W: LinkWrite, E: Write>(
    alloc: Global,
    trace: &Trace,
    file: &mut io::Result<R>,
    shared_words: u32,
    selection: &S,
    trace_report: &A,
    out: &mut W,
    err: &mut E,
) -> u8
    requires reads_image { IfOk file.old (λ reader. R.has_failed reader ≡ false) }
    requires prints { W.has_failed out.old ≡ false }
    requires trace { IsTrace trace.now }
    ensures refused { S.refuses selection.now (config_of trace.now shared_words) trace.now.steps ≡ true →
        (result ≡ 2) × (out.new ≡ out.old) }
    ensures printed { (read : Input) → IsTraceOf read.bytes trace.now → result ≤ 1
        → PrintsTraceReport (UnlessRefused (S.refuses selection.now) (A.reports trace_report.now))
        (trace_input read (opened_input R.remaining R.has_failed file.old file.new) shared_words)
        (output W.contents W.has_failed out.old out.new) result }
    ensures fault { (read : Input) → IsTraceOf read.bytes trace.now → (read.has_failed ≡ false) → 2 ≤ result
        → (RefusesTrace (S.refuses selection.now) shared_words read.bytes × (result ≡ 2))
        ⊎ ReportsCause (TraceCommandFails (A.reports trace_report.now)
        (trace_input read (opened_input R.remaining R.has_failed file.old file.new) shared_words)
        (output W.contents W.has_failed out.old out.new))
        (IsReported (E.contents err.old) (E.contents err.new)) result }
    ensures unread_image { failed_of R.has_failed file.new ≡ true → result ≡ 3 }
    ensures unopened { IsErr file.old → 2 ≤ result }
    ensures failed { W.has_failed out.new ≡ true → result ≡ 3 }
    ensures silent { 2 ≤ result → W.has_failed out.new ≡ false → out.new ≡ out.old }
    ensures quiet { result ≤ 1 → err.new ≡ err.old }
{
    if let Some(refusal) = selection.refusal(trace.config(shared_words), trace.steps()) {
        return refuse(&refusal, err);
    }
    let outcome = print_trace(alloc, trace, file, shared_words, trace_report, out);
    report_outcome(outcome, err)
}

/// Reports a refusal on standard error, and returns the exit status.
fn refuse<D: Display, E: Write>(refusal: &D, err: &mut E) -> u8
    ensures { result ≡ 2 }
{
    // If standard error fails too, only the exit status reports it.
    let _ = writeln!(err, "error: {refusal}");
    REFUSED
}
