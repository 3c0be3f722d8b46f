//! Readers of the flat machine that a machine's parts make. None of its cores may be away.

ghost use Rattle.std.specs.Prelude.{◌≡◌, ◌≤◌, ◌<◌, length, slice_get, slice_index, IfSome, IfNone};
ghost use Rattle.std.specs.Option.{option_copied, option_map};
ghost use Rattle.machine_steps.specs.Machines.{AreHome};
ghost use Rattle.machine_steps.specs.Openings.{flat_state};
ghost use Rattle.machine_steps.specs.Seeing.{byte_seen};

use crate::laws;
use crate::machine::Machine;
use flat_machine::Status;

/// The number of processors.
pub fn flat_processors(machine: &Machine) -> u32
    ensures count { result ≡ length (flat_state machine.now).processors }
    ensures few { result ≤ 64 }
{
    laws::machine_is_well_formed(machine);
    laws::flat_states_are_read();
    u32::from(machine.config().processors())
}

/// The number of shared words.
pub fn flat_shared_words(machine: &Machine) -> u32
    ensures count { result ≡ length (flat_state machine.now).shared }
    ensures few { result ≤ 262144 }
{
    laws::machine_is_well_formed(machine);
    laws::flat_states_are_read();
    machine.config().shared_words
}

/// What a processor is doing, if it is there.
pub fn flat_status(machine: &Machine, processor: u32) -> Option<Status>
    requires home { AreHome machine.now }
    ensures { result ≡ option_map (λ p. p.status) (slice_get (flat_state machine.now).processors processor) }
{
    laws::machine_is_well_formed(machine);
    laws::flat_states_are_read();
    machine.status(number(machine, processor)?)
}

/// The address of a processor's next instruction, if the processor is there.
pub fn flat_pc(machine: &Machine, processor: u32) -> Option<u32>
    requires home { AreHome machine.now }
    ensures { result ≡ option_map (λ p. p.pc) (slice_get (flat_state machine.now).processors processor) }
{
    laws::machine_is_well_formed(machine);
    laws::flat_states_are_read();
    machine.pc(number(machine, processor)?)
}

/// Registers 0 to 31 of a processor, if it is there.
pub fn flat_registers(machine: &Machine, processor: u32) -> Option<&[u32; 32]>
    requires home { AreHome machine.now }
    ensures { option_copied result
        ≡ option_map (λ p. p.registers) (slice_get (flat_state machine.now).processors processor) }
{
    laws::machine_is_well_formed(machine);
    laws::flat_states_are_read();
    machine.registers(number(machine, processor)?)
}

/// The value of a shared word, or 0 if there is no word of this number.
pub fn flat_word(machine: &Machine, word: u32) -> u32
    ensures { result ≡ slice_index (flat_state machine.now).shared word }
{
    laws::machine_is_well_formed(machine);
    laws::flat_states_are_read();
    machine.word(word).unwrap_or(0)
}

/// The byte that a processor sees at an address, if the processor is there and there is a byte.
pub fn flat_byte(machine: &Machine, processor: u32, address: u32) -> Option<u8>
    requires home { AreHome machine.now }
    ensures { result ≡ byte_seen (flat_state machine.now) processor address }
{
    laws::machine_is_well_formed(machine);
    laws::flat_states_are_read();
    machine.visible_byte(number(machine, processor)?, address)
}

/// The number of a processor, if it is there.
fn number(machine: &Machine, processor: u32) -> Option<u8>
    ensures there { IfSome result (λ p. (p ≡ processor) × (p < length (flat_state machine.now).processors)) }
    ensures none { IfNone result (length (flat_state machine.now).processors ≤ processor) }
{
    if processor < flat_processors(machine) {
        Some(processor as u8)
    } else {
        None
    }
}
