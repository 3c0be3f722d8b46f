//! `ultra dis`: from the bytes of an image to the lines of its code.

ghost use Rattle.std.specs.Prelude.{◌≡◌, ◌≢◌, ◌↔◌, true, false, IfOk, IfErr, IsErrOf, OnErr, OnOk, string_bytes};
ghost use Rattle.local_memory.specs.Accesses.{region_of_bytes};
ghost use Rattle.command_io.specs.FaultTexts.{IsReported};
ghost use Rattle.command_io.specs.Printing.{IsCauseOrUnread, Prints, ReportsFault};
ghost use Rattle.asm_commands.specs.CodeLines.{IsListing};
ghost use Rattle.asm_commands.specs.Disassembling.{IsDisassembly, DisassemblyFails};

use crate::code_lines::listing;
use command_io::{DONE, Fault, image_of, print, report_fault};
use elf_image::{Image, ImageError};
use flat_machine::{Config, MIN_QUEUE_CAPACITY};
use link::{LinkRead, LinkWrite};
use local_memory::Code;
use std::alloc::{AllocError, Global};
use std::io::Write;

/// Reads an image for machines with this many shared words, and prints its code: a line for each word up to the last
/// that is not zero, with comments if they are wanted. Returns the exit status: 0 if all lines are printed, otherwise
/// that of the fault that is reported on standard error. All lines are made before the first is printed.
pub fn dis_command<R: LinkRead, W: LinkWrite, E: Write>(
    alloc: Global,
    file: &mut R,
    shared_words: u32,
    comments: bool,
    out: &mut W,
    err: &mut E,
) -> u8
    requires reads { R.has_failed file.old ≡ false }
    requires works { W.has_failed out.old ≡ false }
    ensures listed { result ≡ 0 →
        Prints (IsDisassembly shared_words comments (R.remaining file.old)) (W.contents out.old) (W.contents out.new) }
    ensures fault { result ≢ 0 → ReportsFault W.has_failed Fault.Link ⊥
        (IsCauseOrUnread (DisassemblyFails shared_words comments (R.remaining file.old) (W.contents out.old) (W.contents
        out.new))
        (Fault.Image ImageError.Link) (R.has_failed file.new))
        (IsReported (E.contents err.old) (E.contents err.new)) out.old out.new result }
    ensures failed { W.has_failed out.new ≡ true → result ≡ 3 }
    ensures unread { R.has_failed file.new ≡ true → result ≡ 3 }
    ensures quiet { result ≡ 0 → err.new ≡ err.old }
{
    match execute(alloc, file, shared_words, comments, out) {
        Ok(()) => DONE,
        Err(fault) => report_fault(fault, err),
    }
}

/// Executes the command.
fn execute<R: LinkRead, W: LinkWrite>(
    alloc: Global,
    file: &mut R,
    shared_words: u32,
    comments: bool,
    out: &mut W,
) -> Result<(), Fault>
    requires reads { R.has_failed file.old ≡ false }
    requires works { W.has_failed out.old ≡ false }
    ensures unread { IsErrOf result (Fault.Image ImageError.Link) ↔ (R.has_failed file.new ≡ true) }
    ensures failed { IsErrOf result Fault.Link ↔ (W.has_failed out.new ≡ true) }
    ensures listed { OnOk result (Prints (IsDisassembly shared_words comments (R.remaining file.old))
        (W.contents out.old) (W.contents out.new)) }
    ensures fault { IfErr result (DisassemblyFails shared_words comments (R.remaining file.old) (W.contents out.old)
        (W.contents out.new)) }
    ensures silent { OnErr result (W.has_failed out.new ≡ false → out.new ≡ out.old) }
{
    // What an image means does not depend on the network's size.
    let config = Config {
        k: 0,
        c: MIN_QUEUE_CAPACITY,
        b: 0,
        r: 1,
        shared_words,
    };
    let image = image_of(alloc, file, &config)?;
    let text = listing_of(alloc, &image, comments)?;
    print(out, text.as_str())
}

/// The lines of an image's code.
fn listing_of(alloc: Global, image: &Image, comments: bool) -> Result<String, AllocError>
    ensures { IfOk result (λ text. IsListing comments (region_of_bytes image.now.layout.code) (string_bytes text)) }
{
    let layout = image.layout();
    let code = Code::new(alloc, layout.code.as_slice())?;
    listing(alloc, &code, comments)
}
