//! The command: from the bytes of a file to the bytes of a report.

ghost use Rattle.std.specs.Prelude.{◌≡◌, ◌⊎◌, ⊤, ◌≤◌, true, false, IfOk, IfErr, IsErrOf, OnErr};
ghost use Rattle.command_io.specs.FaultTexts.{IsReported};
ghost use Rattle.command_io.specs.Printing.{Prints, ReportsFault};
ghost use Rattle.words_command.specs.Command.{IsRead, IsProcessorReport, IsWordsReport, ReportOfFails};
ghost use Rattle.words_command.specs.Command.{WordsReportFails, exit_status_of};
ghost use Rattle.words_command.specs.Faults.{fault_of_reading, fault_of_running, fault_of_printing};
ghost use Rattle.words_command.specs.Running.{processor_of};

use crate::load::words_machine;
use crate::print::{PrintError, words_print};
use crate::read::{MAX_WORDS, WordsError, words_read};
use crate::run::{WordsEnd, words_run};
use command_io::{DONE, Fault, STOPPED_BY_FAULT, report_fault};
use flat_machine::Status;
use link::{Link, LinkWrite, Meter};
use machine_log::Logged;
use std::alloc::Global;
use std::io::{Read, Write};

/// The number of bytes that are read of a file. The lines of all words have one byte less, so the first bad line is
/// known.
const MAX_TEXT: u64 = 9 * MAX_WORDS as u64 + 1;

impl From<WordsError> for Fault {
    ghost from_gives = { λ e f. f ≡ fault_of_reading e };

    fn from(error: WordsError) -> Fault {
        match error {
            WordsError::Line(number) => Fault::Line(number),
            WordsError::Memory => Fault::Memory,
        }
    }
}

impl From<WordsEnd> for Fault {
    ghost from_gives = { λ e f. f ≡ fault_of_running e };

    fn from(end: WordsEnd) -> Fault {
        match end {
            WordsEnd::Budget => Fault::Budget,
            WordsEnd::Memory => Fault::Memory,
        }
    }
}

impl From<PrintError> for Fault {
    ghost from_gives = { λ e f. f ≡ fault_of_printing e };

    fn from(error: PrintError) -> Fault {
        match error {
            PrintError::Link => Fault::Link,
            PrintError::Memory => Fault::Memory,
        }
    }
}

/// Reads a program from a file, runs it, and prints its processor. Returns the exit status: 0 if the processor halted,
/// 1 if a fault stopped it, otherwise that of the fault that is reported on standard error. After such a fault nothing
/// is printed, unless printing itself failed.
pub fn words_command<R: Read + Drop, W: LinkWrite, E: Write>(
    alloc: Global,
    file: R,
    out: &mut W,
    err: &mut E,
) -> u8
    requires works { W.has_failed out.old ≡ false }
    ensures reported { result ≤ 1 →
        Prints (IsWordsReport (R.remaining file) result) (W.contents out.old) (W.contents out.new) }
    ensures fault { 2 ≤ result → ReportsFault W.has_failed Fault.Link ⊤
        (WordsReportFails (R.remaining file) (W.contents out.old) (W.contents out.new))
        (IsReported (E.contents err.old) (E.contents err.new)) out.old out.new result }
    ensures failed { W.has_failed out.new ≡ true → result ≡ 3 }
    ensures quiet { result ≤ 1 → err.new ≡ err.old }
{
    match execute(alloc, file, out) {
        Ok(status) => status,
        Err(fault) => report_fault(fault, err),
    }
}

/// Executes the command.
fn execute<R: Read + Drop, W: LinkWrite>(alloc: Global, file: R, out: &mut W) -> Result<u8, Fault>
    requires works { W.has_failed out.old ≡ false }
    ensures reported { IfOk result (λ status. Prints (IsWordsReport (R.remaining file) status) (W.contents out.old)
        (W.contents out.new)) }
    ensures fault { IfErr result (WordsReportFails (R.remaining file) (W.contents out.old) (W.contents out.new)) }
    ensures failed { W.has_failed out.new ≡ true → IsErrOf result Fault.Link }
    ensures silent { OnErr result (W.has_failed out.new ≡ false → out.new ≡ out.old) }
{
    match read_text(alloc, file) {
        Ok(text) => run_text(alloc, text.as_slice(), out),
        Err(fault) => Err(fault),
    }
}

/// The bytes of a file, as many as can matter.
fn read_text<R: Read + Drop>(alloc: Global, file: R) -> Result<Vec<u8>, Fault>
    ensures read { IfOk result (λ text. IsRead (R.remaining file) text.items) }
    ensures fault { IfErr result (λ fault. (fault ≡ Fault.Memory) ⊎ (fault ≡ Fault.Link)) }
{
    let mut text = Vec::new(alloc);
    // If a read is interrupted, `read_to_end` tries again. A meter that has failed does not call the file then.
    let mut reader = Meter::new(file);
    match (&mut reader).take(MAX_TEXT).read_to_end(&mut text) {
        Ok(_) => Ok(text),
        Err(_) if reader.failed() => Err(Fault::Link),
        Err(_) => Err(Fault::Memory),
    }
}

/// Runs the program that a text spells, and prints its processor.
fn run_text<W: LinkWrite>(alloc: Global, text: &[u8], out: &mut W) -> Result<u8, Fault>
    requires works { W.has_failed out.old ≡ false }
    ensures reported { IfOk result (λ status. Prints (IsProcessorReport text.now status) (W.contents out.old)
        (W.contents out.new)) }
    ensures fault { IfErr result (λ fault. ReportOfFails fault text.now (W.contents out.old) (W.contents out.new)) }
    ensures failed { W.has_failed out.new ≡ true → IsErrOf result Fault.Link }
    ensures silent { OnErr result (W.has_failed out.new ≡ false → out.new ≡ out.old) }
{
    let words = words_read(alloc, text)?;
    let Ok(machine) = words_machine(alloc, words.as_slice()) else {
        return Err(Fault::Memory);
    };
    let mut log = Logged::new(alloc, machine);
    words_run(&mut log)?;
    words_print(alloc, &log, out)?;
    Ok(exit_status(&log))
}

/// The exit status that says how the processor stopped.
fn exit_status(log: &Logged) -> u8
    ensures { result ≡ exit_status_of (processor_of log.now.machine).status }
{
    match log.machine().status(0) {
        Some(Status::Faulted(_)) => STOPPED_BY_FAULT,
        _ => DONE,
    }
}
