//! The reports of refusals.

ghost use Rattle.std.specs.Prelude.{◌≡◌, ◌≤◌};
ghost use Rattle.witness_traces.specs.Reports.{IsReportedAs, status_of, unknown_line};

use crate::refused::Refused;
use arrayvec::ArrayString;
use command_io::{REFUSED, SPENT, report_fault, write_error};
use itoa::Buffer;
use std::io::Write;

/// Reports why what is asked for is not printed, or not all of it, and returns the exit status.
pub fn tell_refused<E: Write>(refused: Refused, witness: Option<u32>, err: &mut E) -> u8
    ensures fault { result ≡ status_of refused }
    ensures high { 2 ≤ result }
    ensures reported { IsReportedAs witness (E.contents err.old) (E.contents err.new) refused }
{
    match refused {
        Refused::Fault(fault) => report_fault(fault, err),
        Refused::Unknown => {
            write_error(unknown_line(witness).as_str(), err);
            REFUSED
        }
        Refused::Missed => {
            write_error("error: the steps that were taken lead elsewhere\n", err);
            SPENT
        }
    }
}

/// The line that reports that no result has the number, or, for 0, that an end can be reached from each state; if there
/// is no number, that there is no lasso.
fn unknown_line(witness: Option<u32>) -> ArrayString<56>
    ensures { result.bytes ≡ unknown_line witness }
{
    let mut line = ArrayString::new();
    match witness {
        None => line.push_str("error: no fair schedule is known that never ends\n"),
        Some(0) => line.push_str("error: an end can be reached from each state\n"),
        Some(number) => {
            line.push_str("error: there is no result ");
            line.push_str(Buffer::new().format(number));
            line.push_str("\n");
        }
    }
    line
}
