//! Why `steps` writes no trace.

ghost use Rattle.std.specs.Prelude.{◌≡◌, ◌++◌, ◌≤◌, codes, length};
ghost use Rattle.std.specs.Fmt.{decimal};
ghost use Rattle.trace_text.specs.Refusals.{code_of, mistake_line, status_of, IsReportedAs};

use crate::fault::{Mistake, TextFault};
use arrayvec::ArrayString;
use command_io::{Fault, REFUSED, report_fault, write_error};
use itoa::Buffer;
use std::io::Write;

/// Why a text is not made a trace.
#[derive(Clone, Copy, Debug, PartialEq, Eq, Drop)]
pub enum Refusal {
    /// The text has this mistake, and none before it.
    Mistake(Mistake),
    /// The text has more than [`MAX_TEXT_BYTES`](crate::MAX_TEXT_BYTES).
    TooLong,
    /// The text cannot be read, the trace cannot be written, or there is no memory.
    Fault(Fault),
}

/// The code of what is wrong with a line.
fn code_of(fault: TextFault) -> &'static str
    ensures code { result.now ≡ code_of fault }
    ensures short { length result.now ≤ 2 }
{
    match fault {
        TextFault::Sizes => "S1",
        TextFault::Form => "S2",
        TextFault::Range => "S3",
        TextFault::Full => "S4",
    }
}

/// The line that reports a mistake.
#[tactic(auto, unfolding(crate::specs::Refusals::mistake_line))]
fn mistake_line(mistake: Mistake) -> ArrayString<40>
    ensures { result.bytes ≡ mistake_line mistake }
{
    let mut line = ArrayString::new();
    line.push_str("ultra: ");
    line.push_str(code_of(mistake.fault));
    line.push_str(" line ");
    line.push_str(Buffer::new().format(mistake.line));
    line.push_str("\n");
    line
}

/// Reports a refusal in one line on standard error, and returns its exit status.
pub(crate) fn report<E: Write>(refusal: Refusal, err: &mut E) -> u8
    ensures status { result ≡ status_of refusal }
    ensures high { 2 ≤ result }
    ensures reported { IsReportedAs (E.contents err.old) (E.contents err.new) refusal }
{
    match refusal {
        Refusal::Mistake(mistake) => {
            write_error(mistake_line(mistake).as_str(), err);
            REFUSED
        }
        Refusal::TooLong => {
            write_error("ultra: S5\n", err);
            REFUSED
        }
        Refusal::Fault(fault) => report_fault(fault, err),
    }
}
