//! The faults of a course text, from those of its plain text.

ghost use Rattle.std.specs.Prelude.{◌≡◌, IfOk, map};
ghost use Rattle.assembler.specs.Passes.{nows};
ghost use Rattle.asm_commands.specs.Courses.{at_word, course_fault, course_faults, course_hint, line_at, view_of};
ghost use Rattle.asm_commands.specs.CourseViews.{lines_view};

use crate::origins::origin;
use course_text::{Parts, first_column};
use fault_lists::TextFault;
use line_faults::Hint;
use std::alloc::{AllocError, Global};

/// The lines of a course text and of its plain text.
#[derive(Drop)]
pub struct CourseLines<'v, 'a> {
    /// The lines of the course text.
    pub course: &'v [&'a [u8]],
    /// The lines of its plain text.
    pub plain: &'v [&'a [u8]],
    /// The line of the course text for each plain line, counted from 1.
    pub origins: &'v [usize],
}

/// The line with this number, counted from 1.
fn line_at<'a>(lines: &[&'a [u8]], number: usize) -> &'a [u8]
    ensures { result.now ≡ line_at (nows lines.now) number }
{
    match lines.get(number.saturating_sub(1)) {
        None => &[],
        Some(line) => line,
    }
}

/// The advice, with a line of the course text.
fn course_hint<'a>(origins: &[usize], hint: Hint<'a>) -> Hint<'a>
    ensures { result ≡ course_hint origins.now hint.entry }
{
    match hint {
        Hint::StandsOn(line) => Hint::StandsOn(origin(origins, line)),
        _ => hint,
    }
}

/// A fault of a plain line at this word, as that of a line of the course text.
fn at_word<'a>(
    origins: &[usize],
    column: usize,
    word: &'a [u8],
    fault: &TextFault<'a>,
) -> TextFault<'a>
    ensures { view_of result ≡ at_word origins.now column word.now fault.now }
{
    TextFault {
        line: origin(origins, fault.line),
        column,
        word,
        fault: fault.fault,
        hint: course_hint(origins, fault.hint),
    }
}

/// A fault of a plain line, as that of a line of the course text.
fn course_fault<'a>(lines: &CourseLines<'_, 'a>, fault: &TextFault<'a>) -> TextFault<'a>
    ensures { view_of result ≡ course_fault (lines_view lines.now) fault.now }
{
    let line = line_at(lines.course, origin(lines.origins, fault.line));
    if line_at(lines.plain, fault.line) == line {
        at_word(lines.origins, fault.column, fault.word, fault)
    } else {
        at_word(
            lines.origins,
            first_column(line),
            Parts::of(line).word,
            fault,
        )
    }
}

/// The faults of a course text, the first of each line.
pub fn course_faults<'a>(
    alloc: Global,
    lines: &CourseLines<'_, 'a>,
    faults: &[TextFault<'a>],
) -> Result<Vec<TextFault<'a>>, AllocError>
    ensures { IfOk result (λ listed. map view_of listed.items
        ≡ course_faults (lines_view lines.now) 0 faults.now) }
{
    let mut listed = Vec::new(alloc);
    let mut last = 0;
    for fault in faults {
        let number = origin(lines.origins, fault.line);
        if number == last {
            continue;
        }
        listed.push(course_fault(lines, fault))?;
        last = number;
    }
    Ok(listed)
}
