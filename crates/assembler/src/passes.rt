//! From a text to a program.

ghost use Rattle.std.specs.Prelude.{◌≡◌, ◌≢◌, IfOk, IfErr, codes};
ghost use Rattle.assembler.specs.declared.fault.AsmFault.TheVariants.{Memory};
ghost use Rattle.assembler.specs.Meaning.{IsMeaning, IsPresent, entry_of};
ghost use Rattle.assembler.specs.Passes.{label_values};

use crate::emit::emit_lines;
use crate::fault::{AsmError, AsmFault};
use crate::laws;
use crate::place::place_lines;
use crate::program::Program;
use crate::symbol::Symbol;
use asm_lines::{Section, parts_at};
use flat_machine::CODE_START;
use std::alloc::Global;
use std::collections::BTreeMap;

/// The value of the label `start` if it is an address in code divisible by 4, else the first address of code.
fn entry_of<'a>(labels: &BTreeMap<&'a [u8], Symbol>) -> u32
    ensures { result ≡ entry_of (label_values labels.now (codes "start")) }
{
    match labels.get(&b"start".as_slice()).copied() {
        Some(
            Symbol {
                section: Section::Code,
                address,
            },
        ) if address % 4 == 0 => address,
        _ => CODE_START,
    }
}

/// Assembles a text: returns the program that it means.
///
/// Lines end with LF. A line is an optional label and an optional statement, and `#` begins a comment up to its end.
/// `.code`, `.local` and `.shared` name the section of the lines that follow, `.word`, `.byte` and `.zero` place data,
/// and instructions are allowed in code.
///
/// # Errors
///
/// A line of the text and its fault (any one, if the text has several), or [`AsmFault::Memory`] if out of memory.
pub fn assemble(alloc: Global, text: &str) -> Result<Program, AsmError>
    ensures meaning { IfOk result (λ program. IsMeaning text.now program) }
    ensures fault { IfErr result (λ e. e.fault ≢ Memory → IsPresent text.now e) }
{
    let Ok(lines) = parts_at(alloc, text.as_bytes(), b'\n') else {
        return Err(AsmError {
            line: 1,
            fault: AsmFault::Memory,
        });
    };
    let (placed, cursor) = place_lines(alloc, &lines)?;
    let entry = entry_of(&cursor.labels);
    let layout = emit_lines(alloc, &cursor.labels, &placed, entry)?;
    // A law of texts, only for the proof.
    laws::meaning_fits();
    Ok(Program::new(layout))
}
