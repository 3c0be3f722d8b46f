//! `ultra debug`: loads an image, serves a session on it, and saves the session's trace.

ghost use Rattle.std.specs.Prelude.{◌≡◌, ◌↔◌, true, false, IfOk, IfErr, IsErrOf, OnOk};
ghost use Rattle.command_io.specs.ErrorOutputs.{errors_to};
ghost use Rattle.command_io.specs.Links.{input};
ghost use Rattle.run_reports.specs.RunReports.{IsWorking};
ghost use Rattle.debug_session.specs.Sessions.{IsDebugged, IsNoSession, IsSession, asked_session, link_spec, outputs};
ghost use Rattle.debug_session.specs.Sessions.{trace_link};

use crate::connect::Connect;
use crate::saving::finish;
use crate::serving::serve;
use crate::session_end::SessionEnd;
use crate::sweep::Sweep;
use command_io::{Fault, image_of, machine_of, report_fault};
use elf_image::ImageError;
use flat_machine::Config;
use link::{Failed, LinkRead, LinkWrite};
use machine_log::{Logged, laws};
use std::alloc::Global;
use std::io::Write;
use std::sync::Wait;

/// Reads an image, opens a machine of this size on it, and then asks `door` for a link and serves a session over it.
/// `cont` takes the steps of the sweep, at most `budget` of them.
///
/// If a trace is wanted, it is written after the session, however the session ended. Its steps lead from the machine
/// as it opens to the machine as the session left it. Nothing is written if the session could not begin.
///
/// Returns the exit status. After a session that is [`crate::debug_end`]'s. If there was no session, or its trace could
/// not be written, the status is that of the fault on standard error. Faults are looked for in this order: the image,
/// the machine's size, the link, the trace. A fault of the trace is reported instead of the session's end.
pub fn debug_command<F: LinkRead, C: Connect, T: LinkWrite, E: Write>(
    rt: &impl Wait,
    alloc: Global,
    file: &mut F,
    config: Config,
    budget: u32,
    door: &mut C,
    trace: &mut Option<T>,
    err: &mut E,
) -> u8
    requires reads { F.has_failed file.old ≡ false }
    requires works { IsWorking T.has_failed trace.old }
    ensures { IsDebugged (link_spec (C.gives door.old) C.Reader.remaining C.Writer.contents)
        (asked_session config budget (input F.remaining F.has_failed file.old file.new))
        (outputs (trace_link T.has_failed T.contents trace.old trace.new)
        (errors_to E.contents err.old err.new)) result }
{
    match session(rt, alloc, file, config, budget, door) {
        Ok((end, log)) => finish(end, &log, trace, err),
        Err(fault) => report_fault(fault, err),
    }
}

/// Opens the machine, serves the session, and returns how it ended and its log.
///
/// # Errors
///
/// [`Fault::Image`], [`Fault::Size`] or [`Fault::Memory`] if the machine could not be opened, and [`Fault::Link`] if
/// `door` gave no link.
fn session<F: LinkRead, C: Connect>(
    rt: &impl Wait,
    alloc: Global,
    file: &mut F,
    config: Config,
    budget: u32,
    door: &mut C,
) -> Result<(SessionEnd, Logged), Fault>
    requires reads { F.has_failed file.old ≡ false }
    ensures session { IfOk result (λ done.
        IsSession (link_spec (C.gives door.old) C.Reader.remaining C.Writer.contents)
        (asked_session config budget (input F.remaining F.has_failed file.old file.new)) done.0 done.1) }
    ensures refused { IfErr result
        (IsNoSession (asked_session config budget (input F.remaining F.has_failed file.old file.new))) }
    ensures read { OnOk result (F.has_failed file.new ≡ false) }
    ensures unread { IsErrOf result (Fault.Image ImageError.Link) ↔ (F.has_failed file.new ≡ true) }
{
    let image = image_of(alloc, file, &config)?;
    let mut log = Logged::new(alloc, machine_of(alloc, image, config)?);
    let (mut reader, mut writer) = match door.connect() {
        Ok(link) => link,
        Err(Failed) => return Err(Fault::Link),
    };
    let end = serve(rt, &mut reader, &mut writer, &mut log, &mut Sweep, budget);
    laws::log_is_well_formed(&log);
    Ok((end, log))
}
