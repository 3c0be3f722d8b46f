//! Printing the processor.

ghost use Rattle.std.specs.Prelude.{◌≡◌, ◌↔◌, true, false, Err, IsErrOf, OnOk};
ghost use Rattle.std.specs.Io.KnownBytes.{Appends};
ghost use Rattle.link.specs.Transfer.{AppendsPart};
ghost use Rattle.words_command.specs.Report.{report_of};
ghost use Rattle.words_command.specs.Running.{processor_of};

use crate::report::report;
use link::LinkWrite;
use machine_log::Logged;
use std::alloc::Global;
use thiserror::Error;

/// Why a report was not printed.
#[derive(Clone, Copy, Debug, PartialEq, Eq, Drop, Error)]
pub enum PrintError {
    /// The link failed. Some of the report's first bytes are written, but not all.
    #[error("link")]
    Link,
    /// There was no memory for the report. Nothing of it is written.
    #[error("memory")]
    Memory,
}

/// Prints registers 0 to 31 of processor 0, its `pc` and its status, in 34 lines. All lines are made before the first
/// is printed.
///
/// # Errors
///
/// [`PrintError::Link`] exactly if the link failed in this call, and [`PrintError::Memory`] if there was no memory for
/// the report.
pub fn words_print<W: LinkWrite>(alloc: Global, log: &Logged, out: &mut W) -> Result<(), PrintError>
    requires { W.has_failed out.old ≡ false }
    ensures failed { IsErrOf result PrintError.Link ↔ (W.has_failed out.new ≡ true) }
    ensures printed { OnOk result (Appends (W.contents out.old) (W.contents out.new)
        (report_of (processor_of log.now.machine))) }
    ensures begun { result ≡ Err PrintError.Link →
        AppendsPart (W.contents out.old) (W.contents out.new) (report_of (processor_of log.now.machine)) }
    ensures memory { result ≡ Err PrintError.Memory → out.new ≡ out.old }
{
    let machine = log.machine();
    let (Some(registers), Some(pc), Some(status)) = (
        machine.registers(0),
        machine.pc(0),
        machine.status(0),
    ) else {
        unreachable!()
    };
    let text = match report(alloc, registers, pc, status) {
        Ok(text) => text,
        Err(_) => return Err(PrintError::Memory),
    };
    match command_io::print(out, text.as_str()) {
        Ok(()) => Ok(()),
        Err(_) => Err(PrintError::Link),
    }
}
