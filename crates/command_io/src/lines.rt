//! Lines of a report.

ghost use Rattle.std.specs.Prelude.{◌≡◌, ◌∷◌, ◌++◌, [], codes, OnOk, string_bytes};
ghost use Rattle.std.specs.Fmt.{decimal};
ghost use Rattle.command_io.specs.Digits.{hex_of_word, status_text, line_feed};
ghost use Rattle.command_io.specs.Lines.{console_text, processor_line, word_line, word_lines};

use crate::digits::{push_bytes, push_status, push_word};
use flat_machine::Status;
use std::alloc::{AllocError, Global};
use std::fmt::Write;

/// Appends the line of a processor that has retired this many instructions and has written these bytes to the console.
///
/// # Errors
///
/// [`AllocError`] if there is no memory for it.
#[tactic(auto, unfolding(crate::specs::Lines::processor_line))]
pub fn push_processor(
    alloc: Global,
    text: &mut String,
    number: u8,
    pc: u32,
    status: Status,
    retired: u32,
    console: &[u8],
) -> Result<(), AllocError>
    ensures { OnOk result (string_bytes text.new ≡ string_bytes text.old
        ++ processor_line number pc status (record { retired = retired; console = console.now })) }
{
    write!(text, "processor {number} pc ")?;
    push_word(alloc, text, pc)?;
    text.push(' ')?;
    push_status(alloc, text, status)?;
    push_retired(text, retired)?;
    push_console(alloc, text, console)?;
    text.push('\n')
}

/// Appends how many instructions have retired.
fn push_retired(text: &mut String, retired: u32) -> Result<(), AllocError>
    ensures { OnOk result (string_bytes text.new ≡ string_bytes text.old ++ codes " retired " ++ decimal retired) }
{
    write!(text, " retired {retired}")
}

/// Appends what a processor wrote to the console: ` console ` and its bytes, or `-` if there are none.
///
/// # Errors
///
/// [`AllocError`] if there is no memory for it.
pub fn push_console(alloc: Global, text: &mut String, console: &[u8]) -> Result<(), AllocError>
    ensures { OnOk result (string_bytes text.new ≡ string_bytes text.old ++ codes " console "
        ++ console_text console.now) }
{
    text.push_str(" console ")?;
    if console.is_empty() {
        text.push('-')
    } else {
        push_bytes(alloc, text, console)
    }
}

/// Appends the line of a shared word, unless the word is zero.
///
/// # Errors
///
/// [`AllocError`] if there is no memory for it.
#[tactic(auto, unfolding(crate::specs::Lines::word_line))]
pub fn push_shared_word(
    alloc: Global,
    text: &mut String,
    number: u32,
    word: u32,
) -> Result<(), AllocError>
    ensures { OnOk result (string_bytes text.new ≡ string_bytes text.old ++ word_lines number word) }
{
    if word == 0 {
        return Ok(());
    }
    write!(text, "word {number} ")?;
    push_word(alloc, text, word)?;
    text.push('\n')
}
