//! What commands print for a trace: from the bytes of a trace and of an image to a text.

ghost use Rattle.std.specs.Prelude.{◌≡◌, ◌≤◌, ◌⊎◌, ◌↔◌, ℕ, true, false, IfOk, IfErr, IsErr, IsErrOf, OnErr, length};
ghost use Rattle.std.specs.Prelude.{string_bytes};
ghost use Rattle.trace_file.specs.Traces.{IsTrace};
ghost use Rattle.command_io.specs.FaultTexts.{IsReported};
ghost use Rattle.command_io.specs.Links.{Input, failed_of, input, opened_input, output};
ghost use Rattle.command_io.specs.Printing.{Prints, ReportsCause};
ghost use Rattle.trace_commands.specs.Causes.{IsNotTaken, ReportItselfFails, TraceCommandFails, TraceReportFails};
ghost use Rattle.trace_commands.specs.TraceReports.{IsTraceOf, OfTrace, PrintsTraceReport, trace_input};

use crate::input::trace_of;
use command_io::{Fault, image_of, print, report_outcome};
use elf_image::{Image, ImageError};
use flat_machine::Config;
use link::{LinkRead, LinkWrite};
use std::alloc::Global;
use std::io;
use std::io::Write;
use steps::Step;
use trace_file::{Trace, TraceError};

/// A text about the steps of a trace, such as a report or a serial order.
///
/// [`trace_command`] is the command that prints it.
pub trait TraceReport {
    ghost use Rattle.trace_commands.specs.TraceReports.{ReportRelation};

    /// The relation of the text and the exit status to the size, the image and the steps.
    ghost reports: { Self → ReportRelation };

    /// Takes the steps on a machine of this size that opens on a copy of the image, and returns the text and the exit
    /// status, which is at most 1. The image was read for that number of shared words.
    ///
    /// # Errors
    ///
    /// [`Fault::Size`] if the size is out of limits, [`Fault::Stalled`] at the first step that stalls, and
    /// [`Fault::Memory`].
    fn text(
        &self,
        alloc: Global,
        image: &Image,
        config: Config,
        steps: &[Step],
    ) -> Result<(String, u8), Fault>
        requires few { length steps.now ≤ 4194304 }
        requires words { image.now.shared_words ≡ config.shared_words }
        ensures fault { IfOk result (λ done. Self.reports self.now config image.now steps.now
            (string_bytes done.0) done.1) }
        ensures low { IfOk result (λ done. done.1 ≤ 1) }
        ensures refused { IfErr result (IsNotTaken config image.now steps.now) };
}

/// Reads a trace and an image, and prints the text of the trace's steps. The machine has the trace's size and this many
/// shared words, and opens on the image. If the image's file cannot be opened, this is reported only if the trace has
/// no fault.
///
/// Returns the exit status: that of the text if it is printed, else that of the fault reported on standard error.
/// Faults are checked in this order: of the trace, of the image, of the machine's size, of a step that stalls, of
/// standard output.
pub fn trace_command<A: TraceReport, T: LinkRead, R: LinkRead, W: LinkWrite, E: Write>(
    alloc: Global,
    trace: &mut T,
    file: &mut io::Result<R>,
    shared_words: u32,
    trace_report: &A,
    out: &mut W,
    err: &mut E,
) -> u8
    requires reads { T.has_failed trace.old ≡ false }
    requires reads_image { IfOk file.old (λ reader. R.has_failed reader ≡ false) }
    requires prints { W.has_failed out.old ≡ false }
    ensures printed { result ≤ 1 → PrintsTraceReport (A.reports trace_report.now)
        (trace_input (input T.remaining T.has_failed trace.old trace.new)
        (opened_input R.remaining R.has_failed file.old file.new) shared_words)
        (output W.contents W.has_failed out.old out.new) result }
    ensures fault { 2 ≤ result → ReportsCause (TraceCommandFails (A.reports trace_report.now)
        (trace_input (input T.remaining T.has_failed trace.old trace.new)
        (opened_input R.remaining R.has_failed file.old file.new) shared_words)
        (output W.contents W.has_failed out.old out.new))
        (IsReported (E.contents err.old) (E.contents err.new)) result }
    ensures unread { T.has_failed trace.new ≡ true → result ≡ 3 }
    ensures unread_image { failed_of R.has_failed file.new ≡ true → result ≡ 3 }
    ensures unopened { IsErr file.old → 2 ≤ result }
    ensures failed { W.has_failed out.new ≡ true → result ≡ 3 }
    ensures silent { 2 ≤ result → W.has_failed out.new ≡ false → out.new ≡ out.old }
    ensures quiet { result ≤ 1 → err.new ≡ err.old }
{
    let outcome = execute(alloc, trace, file, shared_words, trace_report, out);
    report_outcome(outcome, err)
}

/// Executes the command.
fn execute<A: TraceReport, T: LinkRead, R: LinkRead, W: LinkWrite>(
    alloc: Global,
    trace: &mut T,
    file: &mut io::Result<R>,
    shared_words: u32,
    trace_report: &A,
    out: &mut W,
) -> Result<u8, Fault>
    requires reads { T.has_failed trace.old ≡ false }
    requires reads_image { IfOk file.old (λ reader. R.has_failed reader ≡ false) }
    requires prints { W.has_failed out.old ≡ false }
    ensures printed { IfOk result (PrintsTraceReport (A.reports trace_report.now)
        (trace_input (input T.remaining T.has_failed trace.old trace.new)
        (opened_input R.remaining R.has_failed file.old file.new) shared_words)
        (output W.contents W.has_failed out.old out.new)) }
    ensures fault { IfErr result (TraceReportFails (A.reports trace_report.now)
        (trace_input (input T.remaining T.has_failed trace.old trace.new)
        (opened_input R.remaining R.has_failed file.old file.new) shared_words)
        (output W.contents W.has_failed out.old out.new)) }
    ensures unread { IsErrOf result (Fault.Trace TraceError.Link) ↔ (T.has_failed trace.new ≡ true) }
    ensures unread_image { IsErrOf result (Fault.Image ImageError.Link) ↔ (failed_of R.has_failed file.new ≡ true) }
    ensures failed { W.has_failed out.new ≡ true → IsErrOf result Fault.Link }
    ensures closed { IsErrOf result Fault.Link → IsErr file.old ⊎ (W.has_failed out.new ≡ true) }
    ensures unopened { IsErr file.old → IsErr result }
    ensures low { IfOk result (λ status. status ≤ 1) }
    ensures silent { OnErr result (W.has_failed out.new ≡ false → out.new ≡ out.old) }
{
    let trace = trace_of(alloc, trace)?;
    print_trace(alloc, &trace, file, shared_words, trace_report, out)
}

/// Prints the text of the steps of a trace.
pub(crate) fn print_trace<A: TraceReport, R: LinkRead, W: LinkWrite>(
    alloc: Global,
    trace: &Trace,
    file: &mut io::Result<R>,
    shared_words: u32,
    trace_report: &A,
    out: &mut W,
) -> Result<u8, Fault>
    requires reads_image { IfOk file.old (λ reader. R.has_failed reader ≡ false) }
    requires prints { W.has_failed out.old ≡ false }
    requires trace { IsTrace trace.now }
    ensures printed { (read : Input) → IsTraceOf read.bytes trace.now →
        IfOk result (PrintsTraceReport (OfTrace (A.reports trace_report.now) trace.now shared_words)
        (trace_input read (opened_input R.remaining R.has_failed file.old file.new) shared_words)
        (output W.contents W.has_failed out.old out.new)) }
    ensures fault { (read : Input) → IsTraceOf read.bytes trace.now →
        IfErr result (TraceReportFails (A.reports trace_report.now)
        (trace_input read (opened_input R.remaining R.has_failed file.old file.new) shared_words)
        (output W.contents W.has_failed out.old out.new)) }
    ensures read { IsErrOf result (Fault.Trace TraceError.Link) → ⊥ }
    ensures unread_image { IsErrOf result (Fault.Image ImageError.Link) ↔ (failed_of R.has_failed file.new ≡ true) }
    ensures failed { W.has_failed out.new ≡ true → IsErrOf result Fault.Link }
    ensures closed { IsErrOf result Fault.Link → IsErr file.old ⊎ (W.has_failed out.new ≡ true) }
    ensures unopened { IsErr file.old → IsErr result }
    ensures low { IfOk result (λ status. status ≤ 1) }
    ensures silent { OnErr result (W.has_failed out.new ≡ false → out.new ≡ out.old) }
{
    let file = match file {
        Ok(file) => file,
        Err(_) => return Err(Fault::Link),
    };
    let config = trace.config(shared_words);
    let image = image_of(alloc, file, &config)?;
    print_trace_report(alloc, &image, config, trace.steps(), trace_report, out)
}

/// Prints the text of steps.
// A separate function, so that neither has many values to drop at each return.
fn print_trace_report<A: TraceReport, W: LinkWrite>(
    alloc: Global,
    image: &Image,
    config: Config,
    steps: &[Step],
    trace_report: &A,
    out: &mut W,
) -> Result<u8, Fault>
    requires prints { W.has_failed out.old ≡ false }
    requires few { length steps.now ≤ 4194304 }
    requires words { image.now.shared_words ≡ config.shared_words }
    ensures failed { IsErrOf result Fault.Link ↔ (W.has_failed out.new ≡ true) }
    ensures printed { IfOk result
        (λ status. Prints (λ text. A.reports trace_report.now config image.now steps.now text status)
        (W.contents out.old)
        (W.contents out.new)) }
    ensures low { IfOk result (λ status. status ≤ 1) }
    ensures fault { IfErr result (ReportItselfFails
        (λ text. (status : ℕ) × A.reports trace_report.now config image.now steps.now text status)
        (IsNotTaken config image.now steps.now) (output W.contents W.has_failed out.old out.new)) }
    ensures silent { OnErr result (W.has_failed out.new ≡ false → out.new ≡ out.old) }
{
    let (text, status) = trace_report.text(alloc, image, config, steps)?;
    print(out, text.as_str())?;
    Ok(status)
}
