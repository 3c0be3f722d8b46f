//! `ultra asm`: from the bytes of a text to the bytes of an image.

ghost use Rattle.std.specs.Prelude.{◌≡◌, ◌≢◌, ◌↔◌, true, false, is_err, IfOk, IfErr, IsErrOf, OnErr, OnOk};
ghost use Rattle.std.specs.Io.KnownBytes.{Appends};
ghost use Rattle.link.specs.Transfer.{AppendsPart};
ghost use Rattle.elf_image.specs.Spellings.{spelling};
ghost use Rattle.assembler.specs.Meaning.{IsMeaning};
ghost use Rattle.command_io.specs.FaultTexts.{IsReported};
ghost use Rattle.command_io.specs.Printing.{IsCauseOrUnread, Prints, ReportsFault};
ghost use Rattle.asm_commands.specs.Assembling.{IsAssembly, AssemblyFails, IsTextRefusal};

use crate::input::{read_text, text_of};
use assembler::{Program, assemble};
use command_io::{DONE, Fault, report_fault};
use elf_image::{ImageError, write_image};
use link::{LinkRead, LinkWrite};
use std::alloc::Global;
use std::io::Write;

/// Assembles the text of a file, and writes the image of what it means. Returns the exit status: 0 if the whole image
/// is written, otherwise that of the fault that is reported on standard error. Nothing of the image is written before
/// the whole text is assembled.
pub fn asm_command<R: LinkRead, W: LinkWrite, E: Write>(
    alloc: Global,
    file: &mut R,
    out: &mut W,
    err: &mut E,
) -> u8
    requires reads { R.has_failed file.old ≡ false }
    requires works { W.has_failed out.old ≡ false }
    ensures assembled { result ≡ 0 →
        Prints (IsAssembly (R.remaining file.old)) (W.contents out.old) (W.contents out.new) }
    ensures fault { result ≢ 0 → ReportsFault W.has_failed (Fault.Image ImageError.Link) ⊥
        (IsCauseOrUnread (AssemblyFails (R.remaining file.old) (W.contents out.old) (W.contents out.new)) Fault.Link
        (R.has_failed file.new))
        (IsReported (E.contents err.old) (E.contents err.new)) out.old out.new result }
    ensures failed { W.has_failed out.new ≡ true → result ≡ 3 }
    ensures unread { R.has_failed file.new ≡ true → result ≡ 3 }
    ensures quiet { result ≡ 0 → err.new ≡ err.old }
{
    match execute(alloc, file, out) {
        Ok(()) => DONE,
        Err(fault) => report_fault(fault, err),
    }
}

/// Executes the command.
fn execute<R: LinkRead, W: LinkWrite>(alloc: Global, file: &mut R, out: &mut W) -> Result<(), Fault>
    requires reads { R.has_failed file.old ≡ false }
    requires works { W.has_failed out.old ≡ false }
    ensures unread { IsErrOf result Fault.Link ↔ (R.has_failed file.new ≡ true) }
    ensures failed { IsErrOf result (Fault.Image ImageError.Link) ↔ (W.has_failed out.new ≡ true) }
    ensures assembled { OnOk result (Prints (IsAssembly (R.remaining file.old)) (W.contents out.old)
        (W.contents out.new)) }
    ensures fault { IfErr result (AssemblyFails (R.remaining file.old) (W.contents out.old) (W.contents out.new)) }
    ensures silent { OnErr result (W.has_failed out.new ≡ false → out.new ≡ out.old) }
{
    let bytes = read_text(alloc, file)?;
    let program = program_of(alloc, bytes.as_slice())?;
    write_program(&program, out)
}

/// The program that a text means.
fn program_of(alloc: Global, bytes: &[u8]) -> Result<Program, Fault>
    ensures meant { IfOk result (λ program. IsMeaning bytes.now program) }
    ensures refused { IfErr result (IsTextRefusal bytes.now) }
{
    let text = text_of(bytes)?;
    Ok(assemble(alloc, text)?)
}

/// Writes the image of a program.
pub fn write_program<W: LinkWrite>(program: &Program, out: &mut W) -> Result<(), Fault>
    requires works { W.has_failed out.old ≡ false }
    ensures failed { W.has_failed out.new ≡ is_err result }
    ensures written { OnOk result (Appends (W.contents out.old) (W.contents out.new) (spelling program.now)) }
    ensures begun { IfErr result (λ fault. (fault ≡ Fault.Image ImageError.Link)
        × AppendsPart (W.contents out.old) (W.contents out.new) (spelling program.now)) }
{
    match write_image(out, program.layout()) {
        Ok(()) => Ok(()),
        Err(_) => Err(Fault::Image(ImageError::Link)),
    }
}
