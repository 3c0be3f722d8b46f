//! `ultra check --course`: from the bytes of a course text to the list of its faults.

ghost use Rattle.std.specs.Prelude.{◌≡◌, ◌≤◌, ◌⊎◌, ◌↔◌, true, false, IfOk, IfErr, IsErrOf, OnErr, map};
ghost use Rattle.command_io.specs.FaultTexts.{IsReported};
ghost use Rattle.command_io.specs.Printing.{IsCauseAndUnread, Prints, ReportsFault};
ghost use Rattle.course_text.specs.Course.{plain_text, origins};
ghost use Rattle.asm_commands.specs.Courses.{IsCourseCheck, IsCourseCheckOf, CourseCheckFails, CourseCheckOfTextFails};
ghost use Rattle.asm_commands.specs.Courses.{lines_of, course_faults, view_of};

use crate::check::status_of;
use crate::course_faults::{CourseLines, course_faults};
use crate::input::{read_text, text_of};
use asm_lines::parts_at;
use command_io::{Fault, print, report_fault};
use course_text::course_text;
use fault_lists::{TextFault, list_of, text_faults};
use link::{LinkRead, LinkWrite};
use std::alloc::{AllocError, Global};
use std::io::Write;

/// Does with the plain text of a file's course text what [`check_command`](crate::check_command) does with a text. The
/// lines are those of the course text, the first fault of each.
pub fn course_check_command<R: LinkRead, W: LinkWrite, E: Write>(
    alloc: Global,
    file: &mut R,
    out: &mut W,
    err: &mut E,
) -> u8
    requires reads { R.has_failed file.old ≡ false }
    requires works { W.has_failed out.old ≡ false }
    ensures checked { result ≤ 1 →
        Prints (IsCourseCheck (R.remaining file.old) result) (W.contents out.old) (W.contents out.new) }
    ensures fault { 2 ≤ result → ReportsFault W.has_failed Fault.Link (R.has_failed file.new ≡ true)
        (IsCauseAndUnread (CourseCheckFails (R.remaining file.old) (W.contents out.old) (W.contents out.new))
        Fault.Link (R.has_failed file.new))
        (IsReported (E.contents err.old) (E.contents err.new)) out.old out.new result }
    ensures failed { W.has_failed out.new ≡ true → result ≡ 3 }
    ensures unread { R.has_failed file.new ≡ true → result ≡ 3 }
    ensures quiet { result ≤ 1 → err.new ≡ err.old }
{
    match execute(alloc, file, out) {
        Ok(status) => status,
        Err(fault) => report_fault(fault, err),
    }
}

/// Executes the command.
fn execute<R: LinkRead, W: LinkWrite>(alloc: Global, file: &mut R, out: &mut W) -> Result<u8, Fault>
    requires reads { R.has_failed file.old ≡ false }
    requires works { W.has_failed out.old ≡ false }
    ensures checked { IfOk result (λ status. Prints (IsCourseCheck (R.remaining file.old) status) (W.contents out.old)
        (W.contents out.new)) }
    ensures low { IfOk result (λ status. status ≤ 1) }
    ensures fault { IfErr result (CourseCheckFails (R.remaining file.old) (W.contents out.old) (W.contents out.new)) }
    ensures failed { W.has_failed out.new ≡ true → IsErrOf result Fault.Link }
    ensures unread { R.has_failed file.new ≡ true → IsErrOf result Fault.Link }
    ensures source { IsErrOf result Fault.Link → (R.has_failed file.new ≡ true) ⊎ (W.has_failed out.new ≡ true) }
    ensures silent { OnErr result (W.has_failed out.new ≡ false → out.new ≡ out.old) }
{
    let bytes = read_text(alloc, file)?;
    check_course(alloc, bytes.as_slice(), out)
}

/// Prints the faults of a course text, and returns the exit status.
fn check_course<W: LinkWrite>(alloc: Global, bytes: &[u8], out: &mut W) -> Result<u8, Fault>
    requires works { W.has_failed out.old ≡ false }
    ensures checked { IfOk result (λ status. Prints (IsCourseCheckOf bytes.now status) (W.contents out.old)
        (W.contents out.new)) }
    ensures low { IfOk result (λ status. status ≤ 1) }
    ensures fault { IfErr result (CourseCheckOfTextFails bytes.now (W.contents out.old) (W.contents out.new)) }
    ensures failed { IsErrOf result Fault.Link ↔ (W.has_failed out.new ≡ true) }
    ensures silent { OnErr result (W.has_failed out.new ≡ false → out.new ≡ out.old) }
{
    let plain = course_text(alloc, bytes)?;
    let text = text_of(plain.text.as_slice())?;
    let faults = text_faults(alloc, text)?;
    let listed = listed_faults(alloc, bytes, text, &plain.origins, &faults)?;
    let list = list_of(alloc, &listed)?;
    print(out, list.as_str())?;
    Ok(status_of(&listed))
}

/// The faults that are listed of a course text, from those of its plain text.
fn listed_faults<'a>(
    alloc: Global,
    bytes: &'a [u8],
    text: &'a str,
    numbers: &[usize],
    faults: &[TextFault<'a>],
) -> Result<Vec<TextFault<'a>>, AllocError>
    requires text { text.now ≡ plain_text bytes.now }
    requires numbers { numbers.now ≡ origins bytes.now }
    ensures { IfOk result (λ listed. map view_of listed.items ≡ course_faults (lines_of bytes.now) 0 faults.now) }
{
    let course = parts_at(alloc, bytes, b'\n')?;
    let plain = parts_at(alloc, text.as_bytes(), b'\n')?;
    let lines = CourseLines {
        course: &course,
        plain: &plain,
        origins: numbers,
    };
    course_faults(alloc, &lines, faults)
}
