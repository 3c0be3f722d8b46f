//! Why a command fails, and how it reports that.

ghost use Rattle.std.specs.Prelude.{◌≡◌, ◌≤◌, Err, IfOk, Ok};
ghost use Rattle.command_io.specs.declared.fault.Fault.TheVariants.{Link as LinkFailed, Memory as NoMemory};
ghost use Rattle.command_io.specs.FaultTexts.{IsReported};
ghost use Rattle.command_io.specs.Faults.{fault_of_image, fault_of_text, fault_of_trace, status_of_fault};
ghost use Rattle.command_io.specs.Printing.{ReportsCause};

use crate::exit::{LINK_FAILED, REFUSED, SPENT};
use crate::printing::write_error;
use assembler::{AsmError, AsmFault};
use elf_image::ImageError;
use link::Failed;
use std::alloc::AllocError;
use std::io::Write;
use trace_file::TraceError;

/// Why a command does not print or write all that it was asked for. Its `Display` is what standard error gets.
#[derive(Clone, Copy, Debug, PartialEq, Eq, Drop)]
pub enum Fault {
    /// The file of words is refused at this line, counted from 1.
    Line(u32),
    /// The assembler refuses the text, at a line.
    Text(AsmError),
    /// The assembler's text is not UTF-8.
    NotUtf8,
    /// The image is refused, or cannot be read or written.
    Image(ImageError),
    /// The trace is refused, or cannot be read or written.
    Trace(TraceError),
    /// The machine's size is out of limits.
    Size,
    /// The step of the trace at this place, counted from 0, stalls.
    Stalled(usize),
    /// The budget is used up, a processor still runs, and no fault has stopped one.
    Budget,
    /// The log is full: it has 4,194,304 steps.
    Full,
    /// The machine did not take back a core that it had lent to a thread.
    Loan,
    /// A thread failed to start.
    Start,
    /// A program reaches the limit on states between references.
    States,
    /// A processor runs for too long without a reference to a shared word.
    Alone,
    /// A file cannot be opened, a text cannot be read, or standard output cannot be written.
    Link,
    /// There was no memory, or the assembler's text is too long.
    Memory,
}

impl Fault {
    /// The exit status for the fault.
    pub fn status(self) -> u8
        ensures fault { result ≡ status_of_fault self }
        ensures high { 2 ≤ result }
    {
        match self {
            Fault::Trace(TraceError::Link) | Fault::Image(ImageError::Link) => LINK_FAILED,
            Fault::Line(_) | Fault::Text(_) | Fault::Image(_) | Fault::Trace(_) => REFUSED,
            Fault::Size | Fault::Stalled(_) => REFUSED,
            Fault::NotUtf8 | Fault::Link => LINK_FAILED,
            Fault::Budget
            | Fault::Full
            | Fault::Loan
            | Fault::Start
            | Fault::States
            | Fault::Alone
            | Fault::Memory => SPENT,
        }
    }
}

impl From<AsmError> for Fault {
    ghost from_gives = { λ e f. f ≡ fault_of_text e };

    fn from(error: AsmError) -> Self {
        match error.fault {
            AsmFault::Memory => Fault::Memory,
            _ => Fault::Text(error),
        }
    }
}

impl From<ImageError> for Fault {
    ghost from_gives = { λ e f. f ≡ fault_of_image e };

    fn from(error: ImageError) -> Self {
        match error {
            ImageError::Memory => Fault::Memory,
            _ => Fault::Image(error),
        }
    }
}

impl From<TraceError> for Fault {
    ghost from_gives = { λ e f. f ≡ fault_of_trace e };

    fn from(error: TraceError) -> Self {
        match error {
            TraceError::Memory => Fault::Memory,
            _ => Fault::Trace(error),
        }
    }
}

impl From<Failed> for Fault {
    ghost from_gives = { λ e f. f ≡ LinkFailed };

    fn from(_failed: Failed) -> Self {
        Fault::Link
    }
}

impl From<AllocError> for Fault {
    ghost from_gives = { λ e f. f ≡ NoMemory };

    fn from(_error: AllocError) -> Self {
        Fault::Memory
    }
}

/// Reports a fault in one line on standard error, and returns its exit status.
pub fn report_fault<E: Write>(fault: Fault, err: &mut E) -> u8
    ensures fault { result ≡ status_of_fault fault }
    ensures high { 2 ≤ result }
    ensures reported { IsReported (E.contents err.old) (E.contents err.new) fault }
{
    // If standard error fails too, only the exit status reports the fault.
    write_error(fault.line().as_str(), err);
    fault.status()
}

/// Returns the exit status of a command: its own if it succeeds. If it fails, reports the fault on standard error and
/// returns the status of the fault.
pub fn report_outcome<E: Write>(outcome: Result<u8, Fault>, err: &mut E) -> u8
    requires low { IfOk outcome (λ status. status ≤ 1) }
    ensures done { result ≤ 1 → outcome ≡ Ok result }
    ensures fault { 2 ≤ result →
        ReportsCause (λ fault. outcome ≡ Err fault) (IsReported (E.contents err.old) (E.contents err.new)) result }
    ensures quiet { result ≤ 1 → err.new ≡ err.old }
{
    match outcome {
        Ok(status) => status,
        Err(fault) => report_fault(fault, err),
    }
}
