//! `ultra asm --course`: from the bytes of a course text to the bytes of an image.

ghost use Rattle.std.specs.Prelude.{◌≡◌, ◌≢◌, ◌↔◌, true, false, IfOk, IfErr, IsErrOf, OnErr, OnOk};
ghost use Rattle.assembler.specs.Meaning.{IsMeaning};
ghost use Rattle.command_io.specs.FaultTexts.{IsReported};
ghost use Rattle.command_io.specs.Printing.{IsCauseOrUnread, Prints, ReportsFault};
ghost use Rattle.course_text.specs.Course.{plain_text};
ghost use Rattle.asm_commands.specs.Courses.{CourseAssemblyFails, IsCourseAssembly, IsCourseRefusal, fault_on};

use crate::asm::write_program;
use crate::input::{read_text, text_of};
use crate::origins::origin;
use assembler::{AsmError, Program, assemble};
use command_io::{DONE, Fault, report_fault};
use course_text::course_text;
use elf_image::ImageError;
use link::{LinkRead, LinkWrite};
use std::alloc::Global;
use std::io::Write;

/// Does with the plain text of a file's course text what [`asm_command`](crate::asm_command) does with a text. A fault
/// names the line of the course text.
pub fn course_asm_command<R: LinkRead, W: LinkWrite, E: Write>(
    alloc: Global,
    file: &mut R,
    out: &mut W,
    err: &mut E,
) -> u8
    requires reads { R.has_failed file.old ≡ false }
    requires works { W.has_failed out.old ≡ false }
    ensures assembled { result ≡ 0 →
        Prints (IsCourseAssembly (R.remaining file.old)) (W.contents out.old) (W.contents out.new) }
    ensures fault { result ≢ 0 → ReportsFault W.has_failed (Fault.Image ImageError.Link) ⊥
        (IsCauseOrUnread (CourseAssemblyFails (R.remaining file.old) (W.contents out.old) (W.contents out.new))
        Fault.Link (R.has_failed file.new))
        (IsReported (E.contents err.old) (E.contents err.new)) out.old out.new result }
    ensures failed { W.has_failed out.new ≡ true → result ≡ 3 }
    ensures unread { R.has_failed file.new ≡ true → result ≡ 3 }
    ensures quiet { result ≡ 0 → err.new ≡ err.old }
{
    match execute(alloc, file, out) {
        Ok(()) => DONE,
        Err(fault) => report_fault(fault, err),
    }
}

/// Executes the command.
fn execute<R: LinkRead, W: LinkWrite>(alloc: Global, file: &mut R, out: &mut W) -> Result<(), Fault>
    requires reads { R.has_failed file.old ≡ false }
    requires works { W.has_failed out.old ≡ false }
    ensures unread { IsErrOf result Fault.Link ↔ (R.has_failed file.new ≡ true) }
    ensures failed { IsErrOf result (Fault.Image ImageError.Link) ↔ (W.has_failed out.new ≡ true) }
    ensures assembled { OnOk result (Prints (IsCourseAssembly (R.remaining file.old)) (W.contents out.old)
        (W.contents out.new)) }
    ensures fault { IfErr result (CourseAssemblyFails (R.remaining file.old) (W.contents out.old)
        (W.contents out.new)) }
    ensures silent { OnErr result (W.has_failed out.new ≡ false → out.new ≡ out.old) }
{
    let bytes = read_text(alloc, file)?;
    let program = program_of(alloc, bytes.as_slice())?;
    write_program(&program, out)
}

/// The program that a course text means.
fn program_of(alloc: Global, bytes: &[u8]) -> Result<Program, Fault>
    ensures meant { IfOk result (λ program. IsMeaning (plain_text bytes.now) program) }
    ensures refused { IfErr result (IsCourseRefusal bytes.now) }
{
    let plain = course_text(alloc, bytes)?;
    let text = text_of(plain.text.as_slice())?;
    match assemble(alloc, text) {
        Ok(program) => Ok(program),
        Err(error) => Err(fault_of(&plain.origins, error)),
    }
}

/// A fault of the plain text, on the line of the course text.
fn fault_of(origins: &[usize], error: AsmError) -> Fault
    ensures { result ≡ fault_on origins.now error }
{
    Fault::from(AsmError {
        line: origin(origins, error.line),
        fault: error.fault,
    })
}
