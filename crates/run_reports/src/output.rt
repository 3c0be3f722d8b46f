//! Writing the trace of a run.

ghost use Rattle.std.specs.Prelude.{◌≡◌, IfErr, OnOk};
ghost use Rattle.trace_file.specs.Traces.{IsTrace, trace_bytes, trace_of};
ghost use Rattle.run_reports.specs.RunReports.{IsPartSaved, IsSaved, IsWorking};

use command_io::Fault;
use flat_machine::Config;
use link::LinkWrite;
use steps::Step;
use trace_file::{TraceError, write_trace};

/// Writes the trace of a run, if one is asked for.
///
/// # Errors
///
/// [`Fault::Trace`] with [`TraceError::Link`] if the writer fails. Then a beginning of the trace is written, and not
/// all of it.
pub fn save<T: LinkWrite>(
    trace: &mut Option<T>,
    config: &Config,
    steps: &[Step],
) -> Result<(), Fault>
    requires works { IsWorking T.has_failed trace.old }
    requires trace { IsTrace (trace_of config.now steps.now) }
    ensures saved { OnOk result (IsSaved T.contents trace.old trace.new (trace_bytes (trace_of config.now steps.now))) }
    ensures failed { IfErr result (λ fault. (fault ≡ Fault.Trace TraceError.Link)
        × IsPartSaved T.contents trace.old trace.new (trace_bytes (trace_of config.now steps.now))) }
{
    match trace {
        Some(writer) => Ok(write_trace(writer, config, steps)?),
        None => Ok(()),
    }
}
