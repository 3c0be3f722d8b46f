//! `ultra replay`: from the bytes of a trace and of an image to the report of the machine.

ghost use Rattle.std.specs.Prelude.{◌≡◌, ◌≤◌, true, false, IfOk, IsErr};
ghost use Rattle.command_io.specs.FaultTexts.{IsReported};
ghost use Rattle.command_io.specs.Links.{failed_of, input, opened_input, output};
ghost use Rattle.command_io.specs.Printing.{ReportsCause};
ghost use Rattle.trace_commands.specs.Causes.{TraceCommandFails};
ghost use Rattle.trace_commands.specs.TraceReports.{IsDrainedReport, PrintsTraceReport, trace_input};

use crate::trace_report::{TraceReport, trace_command};
use command_io::{Fault, machine_of_copy};
use elf_image::Image;
use flat_machine::Config;
use link::{LinkRead, LinkWrite};
use machine_steps::laws;
use run_reports::{drain_counted, replay_counted, report_with_status};
use std::alloc::Global;
use std::io;
use std::io::Write;
use steps::Step;

/// Reads a trace and an image, and takes the trace's steps on a machine of the trace's size, with this many shared
/// words, that opens on the image. Then takes steps until no reference is open, and prints the report, which also
/// counts these last steps. If the image's file cannot be opened, this is reported only if the trace has no fault.
///
/// Returns the exit status: 0 if the report is printed, 1 if it is printed and a fault has stopped a processor, else
/// that of the fault reported on standard error. Faults are checked in this order: of the trace, of the image, of the
/// machine's size, of a step that stalls, of the report.
pub fn replay_command<T: LinkRead, R: LinkRead, W: LinkWrite, E: Write>(
    alloc: Global,
    trace: &mut T,
    file: &mut io::Result<R>,
    shared_words: u32,
    out: &mut W,
    err: &mut E,
) -> u8
    requires reads { T.has_failed trace.old ≡ false }
    requires reads_image { IfOk file.old (λ reader. R.has_failed reader ≡ false) }
    requires prints { W.has_failed out.old ≡ false }
    ensures replayed { result ≤ 1 → PrintsTraceReport IsDrainedReport
        (trace_input (input T.remaining T.has_failed trace.old trace.new)
        (opened_input R.remaining R.has_failed file.old file.new) shared_words)
        (output W.contents W.has_failed out.old out.new) result }
    ensures fault { 2 ≤ result → ReportsCause (TraceCommandFails IsDrainedReport
        (trace_input (input T.remaining T.has_failed trace.old trace.new)
        (opened_input R.remaining R.has_failed file.old file.new) shared_words)
        (output W.contents W.has_failed out.old out.new))
        (IsReported (E.contents err.old) (E.contents err.new)) result }
    ensures unread { T.has_failed trace.new ≡ true → result ≡ 3 }
    ensures unread_image { failed_of R.has_failed file.new ≡ true → result ≡ 3 }
    ensures unopened { IsErr file.old → 2 ≤ result }
    ensures failed { W.has_failed out.new ≡ true → result ≡ 3 }
    ensures silent { 2 ≤ result → W.has_failed out.new ≡ false → out.new ≡ out.old }
    ensures quiet { result ≤ 1 → err.new ≡ err.old }
{
    trace_command(alloc, trace, file, shared_words, &Report, out, err)
}

/// The report of the machine after the steps of a trace and a drain, as [`replay_command`] prints it.
#[derive(Clone, Copy, Debug, Drop)]
pub struct Report;

impl TraceReport for Report {
    ghost use Rattle.trace_commands.specs.TraceReports.{IsDrainedReport};

    ghost reports = { λ report. IsDrainedReport };

    fn text(
        &self,
        alloc: Global,
        image: &Image,
        config: Config,
        steps: &[Step],
    ) -> Result<(String, u8), Fault> {
        let mut machine = machine_of_copy(alloc, image, config)?;
        laws::machine_is_well_formed(&machine);
        let mut tally = replay_counted(alloc, &mut machine, steps)?;
        drain_counted(&mut machine, &mut tally)?;
        Ok(report_with_status(alloc, &machine, &tally, None)?)
    }
}
