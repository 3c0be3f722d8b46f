//! Replies that show the machine.

ghost use Rattle.std.specs.Prelude.{◌≡◌, ◌≤◌, ◌+◌, ◌++◌, length, slice_get};
ghost use Rattle.arrayvec.specs.ArrayVec.{array_vec_len};
ghost use Rattle.machine_steps.specs.Machines.{AreHome};
ghost use Rattle.machine_steps.specs.Runs.{flat_state};
ghost use Rattle.debug_replies.specs.Texts.{memory_text, register_at, register_text, registers_text, shown_text};
ghost use Rattle.debug_replies.specs.Texts.{state_text};

use crate::digits::{push, push_byte, push_status, push_word, push_words};
use crate::error::MAX_SHOWN;
use arrayvec::ArrayVec;
use debug_lines::Command;
use flat_machine::PC;
use machine_steps::{Machine, flat_byte, flat_pc, flat_registers, flat_status};

/// Replaces the text by the reply to a command that has no error: what it shows, or `ok`. The text is empty for `step`
/// and `cont`, whose reply depends on what they do, and for what does not exist.
#[tactic(auto, unfolding(crate::specs::Texts::shown_text))]
pub fn show(machine: &Machine, command: &Command, text: &mut ArrayVec<u8, 1024>)
    requires home { AreHome machine.now }
    ensures { text.new.items ≡ shown_text (flat_state machine.now) command.now }
{
    text.clear();
    match command {
        Command::State { processor } => show_state(machine, *processor, text),
        Command::Registers { processor } => show_registers(machine, *processor, text),
        Command::Register {
            processor,
            register,
        } => show_register(machine, *processor, *register, text),
        Command::Memory {
            processor,
            address,
            length,
        } => show_memory(machine, *processor, *address, *length, text),
        Command::Step { .. } | Command::Continue | Command::Malformed => {}
        _ => push(text, b"ok"),
    }
}

/// Shows what a processor is doing.
#[tactic(auto, unfolding(crate::specs::Texts::state_text))]
fn show_state(machine: &Machine, processor: u32, text: &mut ArrayVec<u8, 1024>)
    requires home { AreHome machine.now }
    requires empty { array_vec_len text.old ≡ 0 }
    ensures { text.new.items ≡ state_text (slice_get (flat_state machine.now).processors processor) }
{
    if let Some(status) = flat_status(machine, processor) {
        push_status(text, status);
    }
}

/// Shows a processor's registers, and then its `pc`.
#[tactic(auto, unfolding(crate::specs::Texts::registers_text))]
fn show_registers(machine: &Machine, processor: u32, text: &mut ArrayVec<u8, 1024>)
    requires home { AreHome machine.now }
    requires empty { array_vec_len text.old ≡ 0 }
    ensures { text.new.items ≡ registers_text (slice_get (flat_state machine.now).processors processor) }
{
    if let (Some(registers), Some(pc)) = (
        flat_registers(machine, processor),
        flat_pc(machine, processor),
    ) {
        push_words(text, registers);
        push_word(text, pc);
    }
}

/// Shows one register of a processor.
#[tactic(auto, unfolding(crate::specs::Texts::register_text))]
fn show_register(machine: &Machine, processor: u32, register: u32, text: &mut ArrayVec<u8, 1024>)
    requires home { AreHome machine.now }
    requires empty { array_vec_len text.old ≡ 0 }
    ensures { text.new.items ≡ register_text (slice_get (flat_state machine.now).processors processor) register }
{
    if let Some(value) = register_value(machine, processor, register) {
        push_word(text, value);
    }
}

/// Shows the bytes that a processor sees, from an address on.
#[tactic(auto, unfolding(crate::specs::Texts::memory_text))]
fn show_memory(
    machine: &Machine,
    processor: u32,
    address: u32,
    length: u32,
    text: &mut ArrayVec<u8, 1024>,
)
    requires home { AreHome machine.now }
    requires empty { array_vec_len text.old ≡ 0 }
    ensures { text.new.items ≡ memory_text (flat_state machine.now) processor address length }
{
    if length > MAX_SHOWN || u64::from(address) + u64::from(length) > 1 << 32 {
        return;
    }
    for i in 0..length {
        if let Some(byte) = flat_byte(machine, processor, address + i) {
            push_byte(text, byte);
        }
    }
}

/// A register of a processor, or `pc` as 32. None if there is no such processor or register.
#[tactic(auto, unfolding(crate::specs::Texts::register_at))]
fn register_value(machine: &Machine, processor: u32, register: u32) -> Option<u32>
    requires home { AreHome machine.now }
    ensures { result ≡ register_at (slice_get (flat_state machine.now).processors processor) register }
{
    if register == u32::from(PC) {
        return flat_pc(machine, processor);
    }
    let registers = flat_registers(machine, processor)?;
    registers.get(register as usize).copied()
}
