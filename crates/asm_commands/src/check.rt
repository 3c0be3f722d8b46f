//! `ultra check`: from the bytes of a text to the list of its faults.

ghost use Rattle.std.specs.Prelude.{◌≡◌, ◌≤◌, ◌⊎◌, ◌↔◌, true, false, IfOk, IfErr, IsErrOf, OnErr};
ghost use Rattle.command_io.specs.FaultTexts.{IsReported};
ghost use Rattle.command_io.specs.Printing.{IsCauseAndUnread, Prints, ReportsFault};
ghost use Rattle.asm_commands.specs.Checking.{IsCheck, CheckFails, IsCheckOf, CheckOfTextFails, status_of};

use crate::input::{read_text, text_of};
use command_io::{DONE, Fault, print, report_fault};
use fault_lists::{TextFault, list_of, text_faults};
use link::{LinkRead, LinkWrite};
use std::alloc::Global;
use std::io::Write;

/// The exit status if the list is printed and has a fault.
const FAULTY: u8 = 1;

/// Reads a text and prints all its faults: a line for each, and a last line with their number. Returns the exit status:
/// 0 if there is no fault, 1 if there is one, otherwise that of the fault that is reported on standard error. The whole
/// list is made before its first byte is printed.
pub fn check_command<R: LinkRead, W: LinkWrite, E: Write>(
    alloc: Global,
    file: &mut R,
    out: &mut W,
    err: &mut E,
) -> u8
    requires reads { R.has_failed file.old ≡ false }
    requires works { W.has_failed out.old ≡ false }
    ensures checked { result ≤ 1 →
        Prints (IsCheck (R.remaining file.old) result) (W.contents out.old) (W.contents out.new) }
    ensures fault { 2 ≤ result → ReportsFault W.has_failed Fault.Link (R.has_failed file.new ≡ true)
        (IsCauseAndUnread (CheckFails (R.remaining file.old) (W.contents out.old) (W.contents out.new)) Fault.Link
        (R.has_failed file.new))
        (IsReported (E.contents err.old) (E.contents err.new)) out.old out.new result }
    ensures failed { W.has_failed out.new ≡ true → result ≡ 3 }
    ensures unread { R.has_failed file.new ≡ true → result ≡ 3 }
    ensures quiet { result ≤ 1 → err.new ≡ err.old }
{
    match execute(alloc, file, out) {
        Ok(status) => status,
        Err(fault) => report_fault(fault, err),
    }
}

/// Executes the command.
fn execute<R: LinkRead, W: LinkWrite>(alloc: Global, file: &mut R, out: &mut W) -> Result<u8, Fault>
    requires reads { R.has_failed file.old ≡ false }
    requires works { W.has_failed out.old ≡ false }
    ensures checked { IfOk result (λ status. Prints (IsCheck (R.remaining file.old) status) (W.contents out.old)
        (W.contents out.new)) }
    ensures low { IfOk result (λ status. status ≤ 1) }
    ensures fault { IfErr result (CheckFails (R.remaining file.old) (W.contents out.old) (W.contents out.new)) }
    ensures failed { W.has_failed out.new ≡ true → IsErrOf result Fault.Link }
    ensures unread { R.has_failed file.new ≡ true → IsErrOf result Fault.Link }
    ensures source { IsErrOf result Fault.Link → (R.has_failed file.new ≡ true) ⊎ (W.has_failed out.new ≡ true) }
    ensures silent { OnErr result (W.has_failed out.new ≡ false → out.new ≡ out.old) }
{
    let bytes = read_text(alloc, file)?;
    let text = text_of(bytes.as_slice())?;
    check_text(alloc, text, out)
}

/// Prints the faults of a text, and returns the exit status.
fn check_text<W: LinkWrite>(alloc: Global, text: &str, out: &mut W) -> Result<u8, Fault>
    requires works { W.has_failed out.old ≡ false }
    ensures checked { IfOk result (λ status. Prints (IsCheckOf text.now status) (W.contents out.old)
        (W.contents out.new)) }
    ensures low { IfOk result (λ status. status ≤ 1) }
    ensures fault { IfErr result (CheckOfTextFails text.now (W.contents out.old) (W.contents out.new)) }
    ensures failed { IsErrOf result Fault.Link ↔ (W.has_failed out.new ≡ true) }
    ensures silent { OnErr result (W.has_failed out.new ≡ false → out.new ≡ out.old) }
{
    let faults = text_faults(alloc, text)?;
    let list = list_of(alloc, &faults)?;
    print(out, list.as_str())?;
    Ok(status_of(&faults))
}

/// The exit status that says whether there is a fault.
pub fn status_of(faults: &[TextFault<'_>]) -> u8
    ensures status { result ≡ status_of faults.now }
    ensures low { result ≤ 1 }
{
    match faults {
        [] => DONE,
        _ => FAULTY,
    }
}
