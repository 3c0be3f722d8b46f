//! `ultra asm`: the files that it reads and writes.

ghost use Rattle.std.specs.Prelude.{◌≡◌, false};

use crate::refusal::Refusal;
use asm_commands::{asm_command, course_asm_command, course_symbol_map, read_text, symbol_map};
use command_io::{DONE, Fault, print, report_fault};
use host_files::{
    Explained, FileRefusal, Reason, STANDARD, Source, are_one_file, create, open_beside, writer_to,
};
use link::{Link, LinkRead, LinkWrite, Meter};
use settings::Asm;
use std::alloc::Global;
use std::io::{ErrorKind, Input, Write};
use std::rt::Files;

/// Does what `asm FILE OUT` asks for. The first write to OUT opens it.
pub(crate) fn asm_file<'a, R: Files + Input + AllocGlobal, W: LinkWrite, E: Write>(
    rt: &R,
    asm: &Asm<'a>,
    reason: &Reason,
    out: &mut W,
    err: &mut E,
) -> Result<u8, Refusal<'a>>
    requires works { W.has_failed out.old ≡ false }
{
    match asm.symbols {
        Some(map) => assemble_beside_map(rt, asm, map, reason, out, err),
        None => {
            let mut file = Meter::new(open_text(rt, asm, reason)?);
            Ok(assemble(rt, asm, &mut file, reason, out, err))
        }
    }
}

/// Opens FILE, unless it is OUT.
fn open_text<'a, 'r, R: Files + Input>(
    rt: &R,
    asm: &Asm<'a>,
    reason: &'r Reason,
) -> Result<Explained<'r, Source<R::File, R::Reader>>, Refusal<'a>> {
    let out = if asm.out == STANDARD {
        None
    } else {
        Some(asm.out)
    };
    Ok(open_beside(rt, asm.file, out, reason)?)
}

/// Assembles the text that a file has to OUT.
fn assemble<F: LinkRead, R: Files + AllocGlobal, W: LinkWrite, E: Write>(
    rt: &R,
    asm: &Asm<'_>,
    file: &mut F,
    reason: &Reason,
    out: &mut W,
    err: &mut E,
) -> u8
    requires reads { F.has_failed file.old ≡ false }
    requires works { W.has_failed out.old ≡ false }
{
    if asm.out == STANDARD {
        return assemble_to(rt.alloc(), asm.course, file, out, err);
    }
    let mut image = writer_to(rt, asm.out, reason);
    assemble_to(rt.alloc(), asm.course, file, &mut image, err)
}

/// Assembles a text, or a course text.
fn assemble_to<R: LinkRead, W: LinkWrite, E: Write>(
    alloc: Global,
    course: bool,
    file: &mut R,
    out: &mut W,
    err: &mut E,
) -> u8
    requires reads { R.has_failed file.old ≡ false }
    requires works { W.has_failed out.old ≡ false }
{
    if course {
        course_asm_command(alloc, file, out, err)
    } else {
        asm_command(alloc, file, out, err)
    }
}

/// Assembles FILE to OUT, and then writes the map of its labels.
fn assemble_beside_map<'a, R: Files + Input + AllocGlobal, W: LinkWrite, E: Write>(
    rt: &R,
    asm: &Asm<'a>,
    map: &'a str,
    reason: &Reason,
    out: &mut W,
    err: &mut E,
) -> Result<u8, Refusal<'a>>
    requires works { W.has_failed out.old ≡ false }
{
    if map == asm.out || is_file_at(rt, map, asm.out) || is_file_at(rt, map, asm.file) {
        return Err(Refusal::SameMap);
    }
    let mut file = Meter::new(open_text(rt, asm, reason)?);
    let text = match read_text(rt.alloc(), &mut file) {
        Ok(text) => text,
        Err(fault) => return Ok(report_fault(fault, err)),
    };
    let status = assemble(rt, asm, &mut Meter::new(text.as_slice()), reason, out, err);
    if status != DONE || out.failed() {
        return Ok(status);
    }
    let lines = if asm.course {
        course_symbol_map(rt.alloc(), text.as_slice())
    } else {
        symbol_map(rt.alloc(), text.as_slice())
    };
    let Ok(lines) = lines else {
        return Ok(report_fault(Fault::Memory, err));
    };
    write_map(rt, map, lines.as_str(), reason, out, err)
}

/// Whether two paths name the same file.
fn is_file_at<R: Files>(rt: &R, one: &str, other: &str) -> bool {
    one != STANDARD && other != STANDARD && are_one_file(rt, one, other)
}

/// Writes the map of labels to a file, or to standard output.
fn write_map<'a, R: Files, W: LinkWrite, E: Write>(
    rt: &R,
    map: &'a str,
    lines: &str,
    reason: &Reason,
    out: &mut W,
    err: &mut E,
) -> Result<u8, Refusal<'a>>
    requires works { W.has_failed out.old ≡ false }
{
    if map == STANDARD {
        return Ok(match print(out, lines) {
            Ok(()) => DONE,
            Err(fault) => report_fault(fault, err),
        });
    }
    let mut writer = Meter::new(create(rt, map, reason)?);
    match print(&mut writer, lines) {
        Ok(()) => Ok(DONE),
        Err(_) => {
            let error = reason.get().unwrap_or(ErrorKind::Other.into());
            Err(Refusal::File(FileRefusal::Closed(map, error)))
        }
    }
}
