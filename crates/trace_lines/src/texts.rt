//! The texts of lines.

ghost use Rattle.std.specs.Prelude.{◌≡◌, ◌∷◌, ◌++◌, [], codes, OnOk, string_bytes};
ghost use Rattle.std.specs.Fmt.{decimal};
ghost use Rattle.assembler.specs.asm_lines.Written.{text_of};
ghost use Rattle.command_io.specs.Digits.{hex_of_byte, hex_of_word, line_feed};
ghost use Rattle.trace_lines.specs.OrderTexts.{console_text, event_text, owner_text, poke_line, reference_text};
ghost use Rattle.trace_lines.specs.OrderTexts.{register_text, result_text, turn_line, written_text};

use crate::reference::Reference;
use arrayvec::ArrayString;
use assembler::disassemble;
use command_io::{push_bytes, push_status, push_word};
use flat_machine::{Event, PC, Poke, Retired};
use std::alloc::{AllocError, Global};
use std::fmt::Write;

/// Appends the line of a turn: the entry's number, the processor, the address of its instruction, what it
/// shows, and what it did to a shared word, if it acted on one.
///
/// # Errors
///
/// [`AllocError`] if there is no memory for it.
#[tactic(auto, unfolding(crate::specs::OrderTexts::turn_line))]
pub fn push_turn(
    alloc: Global,
    text: &mut String,
    number: usize,
    processor: u8,
    pc: u32,
    event: &Event,
    reference: &Option<Reference>,
) -> Result<(), AllocError>
    ensures { OnOk result (string_bytes text.new ≡ string_bytes text.old
        ++ turn_line number processor pc event.now reference.now) }
{
    write!(text, "{number} {processor} ")?;
    push_word(alloc, text, pc)?;
    text.push(' ')?;
    push_event(alloc, text, event)?;
    push_reference(alloc, text, reference)?;
    text.push('\n')
}

/// Appends what a turn shows: the instruction and its results, or how the processor stopped.
///
/// # Errors
///
/// [`AllocError`] if there is no memory for it.
pub fn push_event(alloc: Global, text: &mut String, event: &Event) -> Result<(), AllocError>
    ensures { OnOk result (string_bytes text.new ≡ string_bytes text.old ++ event_text event.now) }
{
    match event {
        Event::Retired(retired) => push_retired(alloc, text, retired),
        Event::Stopped(cause) => push_status(alloc, text, cause.status()),
    }
}

/// Appends an instruction and its results.
fn push_retired(alloc: Global, text: &mut String, retired: &Retired) -> Result<(), AllocError>
    ensures { OnOk result (string_bytes text.new ≡ string_bytes text.old ++ text_of retired.now.insn
        ++ result_text retired.now.result
        ++ console_text retired.now.out) }
{
    let mut written = ArrayString::new();
    disassemble(&retired.insn, &mut written);
    text.push_str(written.as_str())?;
    push_result(alloc, text, retired.result)?;
    push_console(alloc, text, retired.out)
}

/// Appends the value written to a register, if any.
fn push_result(alloc: Global, text: &mut String, value: Option<u32>) -> Result<(), AllocError>
    ensures { OnOk result (string_bytes text.new ≡ string_bytes text.old ++ result_text value) }
{
    match value {
        Some(word) => {
            text.push_str(" = ")?;
            push_word(alloc, text, word)
        }
        None => Ok(()),
    }
}

/// Appends the byte written to the console, if any.
fn push_console(alloc: Global, text: &mut String, out: Option<u8>) -> Result<(), AllocError>
    ensures { OnOk result (string_bytes text.new ≡ string_bytes text.old ++ console_text out) }
{
    match out {
        Some(byte) => {
            text.push_str(" console ")?;
            push_bytes(alloc, text, &[byte])
        }
        None => Ok(()),
    }
}

/// Appends what an entry did to a shared word, if it acted on one.
fn push_reference(
    alloc: Global,
    text: &mut String,
    reference: &Option<Reference>,
) -> Result<(), AllocError>
    ensures { OnOk result (string_bytes text.new ≡ string_bytes text.old ++ reference_text reference.now) }
{
    match *reference {
        Some(
            Reference {
                word,
                before,
                after,
            },
        ) => {
            write!(text, " word {word} ")?;
            push_word(alloc, text, before)?;
            text.push(' ')?;
            push_word(alloc, text, after)
        }
        None => Ok(()),
    }
}

/// Appends the line of a poke: the entry's number, the processor, or `-` if it writes to a shared word, what it writes
/// and where, and what it did to the shared word.
///
/// # Errors
///
/// [`AllocError`] if there is no memory for it.
#[tactic(auto, unfolding(crate::specs::OrderTexts::poke_line))]
pub fn push_poke(
    alloc: Global,
    text: &mut String,
    number: usize,
    poke: &Poke,
    reference: &Option<Reference>,
) -> Result<(), AllocError>
    ensures { OnOk result (string_bytes text.new ≡ string_bytes text.old ++ poke_line number poke.now reference.now) }
{
    write!(text, "{number} ")?;
    push_owner(text, poke)?;
    text.push_str(" poke ")?;
    push_written(alloc, text, poke)?;
    push_reference(alloc, text, reference)?;
    text.push('\n')
}

/// Appends the number of the processor that a poke writes to, or `-` if it writes to a shared word.
///
/// # Errors
///
/// [`AllocError`] if there is no memory for it.
pub fn push_owner(text: &mut String, poke: &Poke) -> Result<(), AllocError>
    ensures { OnOk result (string_bytes text.new ≡ string_bytes text.old ++ owner_text poke.now) }
{
    match *poke {
        Poke::Register { processor, .. } | Poke::Local { processor, .. } => {
            write!(text, "{processor}")
        }
        Poke::Shared { .. } => text.push('-'),
    }
}

/// Appends the register that a poke writes, or the address of the byte, and the new value.
///
/// # Errors
///
/// [`AllocError`] if there is no memory for it.
pub fn push_written(alloc: Global, text: &mut String, poke: &Poke) -> Result<(), AllocError>
    ensures { OnOk result (string_bytes text.new ≡ string_bytes text.old ++ written_text poke.now) }
{
    match *poke {
        Poke::Register {
            register,
            value,
            ..
        } => {
            push_register(text, register)?;
            text.push(' ')?;
            push_word(alloc, text, value)
        }
        Poke::Local { address, value, .. } | Poke::Shared { address, value } => {
            push_byte_at(alloc, text, address, value)
        }
    }
}

/// Appends a register's name, or `pc`.
fn push_register(text: &mut String, register: u8) -> Result<(), AllocError>
    ensures { OnOk result (string_bytes text.new ≡ string_bytes text.old ++ register_text register) }
{
    if register == PC {
        text.push_str("pc")
    } else {
        write!(text, "x{register}")
    }
}

/// Appends an address, and the byte that is written there.
fn push_byte_at(alloc: Global, text: &mut String, address: u32, value: u8) -> Result<(), AllocError>
    ensures { OnOk result (string_bytes text.new ≡ string_bytes text.old ++ hex_of_word address ++ codes " "
        ++ hex_of_byte value) }
{
    push_word(alloc, text, address)?;
    text.push(' ')?;
    push_bytes(alloc, text, &[value])
}
