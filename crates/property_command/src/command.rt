//! The command.

ghost use Rattle.std.specs.Prelude.{◌≡◌, ◌≤◌, ◌↔◌, true, false, None, IfOk, IfErr, IsErrOf, OnErr};
ghost use Rattle.command_io.specs.Links.{input, output};
ghost use Rattle.command_io.specs.Printing.{Prints, ReportsRefusal};
ghost use Rattle.run_reports.specs.RunReports.{IsWorking, trace_output};
ghost use Rattle.witness_traces.specs.Reports.{IsReportedAs, status_of};
ghost use Rattle.property_command.specs.Judging.{IsRefused, JudgingFails, PrintsVerdict, judging_of};

use crate::judging::judge_image;
use command_io::{Fault, image_of, print};
use elf_image::ImageError;
use exploration::SearchObserver;
use flat_machine::Config;
use link::{LinkRead, LinkWrite};
use state_conditions::Property;
use std::alloc::Global;
use std::io::Write;
use witness_traces::{Refused, tell_refused};

/// What is judged, and how it is printed.
#[derive(Drop)]
pub struct Asked<'a> {
    /// The number of states between references to shared words at which the search gives up.
    pub limit: u32,
    pub property: &'a Property,
    /// The text of the property's condition, as it is printed.
    pub condition: &'a str,
}

/// Reads an image, judges a property of its program on a machine of this size, and prints the verdict. The observer
/// sees the progress of the search. If a trace is asked for and the property is broken, the trace of a run to the first
/// state found that breaks it is written first.
///
/// Returns the exit status: 0 if the property holds, 1 if a state breaks it; else that of the fault reported on
/// standard error. Faults are checked in this order: of the image, of the machine's size, of the search, of the steps
/// to the broken state, of the trace, of standard output. [`Fault::Alone`] also says that no state that was found
/// breaks the property, but in one of them a processor spins, so that its verdict is not known.
pub fn property_command<R: LinkRead, T: LinkWrite, G: SearchObserver, W: LinkWrite, E: Write>(
    alloc: Global,
    file: &mut R,
    config: Config,
    asked: &Asked<'_>,
    trace: &mut Option<T>,
    observer: &mut G,
    out: &mut W,
    err: &mut E,
) -> u8
    requires reads { R.has_failed file.old ≡ false }
    requires works { IsWorking T.has_failed trace.old }
    requires prints { W.has_failed out.old ≡ false }
    ensures printed { result ≤ 1 →
        Prints (PrintsVerdict (judging_of config asked.now (input R.remaining R.has_failed file.old file.new))
        (trace_output T.contents trace.old trace.new) result)
        (W.contents out.old) (W.contents out.new) }
    ensures fault { 2 ≤ result → ReportsRefusal status_of
        (JudgingFails (judging_of config asked.now (input R.remaining R.has_failed file.old file.new))
        (trace_output T.contents trace.old trace.new) (output W.contents W.has_failed out.old out.new))
        (IsReportedAs None (E.contents err.old) (E.contents err.new)) result }
    ensures failed { W.has_failed out.new ≡ true → result ≡ 3 }
    ensures unread { R.has_failed file.new ≡ true → result ≡ 3 }
    ensures silent { 2 ≤ result → W.has_failed out.new ≡ false → out.new ≡ out.old }
    ensures quiet { result ≤ 1 → err.new ≡ err.old }
{
    match execute(alloc, file, config, asked, trace, observer, out) {
        Ok(status) => status,
        Err(refused) => tell_refused(refused, None, err),
    }
}

/// Executes the command.
fn execute<R: LinkRead, T: LinkWrite, G: SearchObserver, W: LinkWrite>(
    alloc: Global,
    file: &mut R,
    config: Config,
    asked: &Asked<'_>,
    trace: &mut Option<T>,
    observer: &mut G,
    out: &mut W,
) -> Result<u8, Refused>
    requires reads { R.has_failed file.old ≡ false }
    requires works { IsWorking T.has_failed trace.old }
    requires prints { W.has_failed out.old ≡ false }
    ensures unread { IsErrOf result (Refused.Fault (Fault.Image ImageError.Link)) ↔ (R.has_failed file.new ≡ true) }
    ensures failed { IsErrOf result (Refused.Fault Fault.Link) ↔ (W.has_failed out.new ≡ true) }
    ensures printed { IfOk result (λ status.
        Prints (PrintsVerdict (judging_of config asked.now (input R.remaining R.has_failed file.old file.new))
        (trace_output T.contents trace.old trace.new) status)
        (W.contents out.old) (W.contents out.new)) }
    ensures low { IfOk result (λ status. status ≤ 1) }
    ensures fault { IfErr result
        (IsRefused (judging_of config asked.now (input R.remaining R.has_failed file.old file.new))
        (trace_output T.contents trace.old trace.new) (output W.contents W.has_failed out.old out.new)) }
    ensures silent { OnErr result (W.has_failed out.new ≡ false → out.new ≡ out.old) }
{
    let image = image_of(alloc, file, &config)?;
    let (text, status) = judge_image(alloc, image, config, asked, trace, observer)?;
    print(out, text.as_str())?;
    Ok(status)
}
