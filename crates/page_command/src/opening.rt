//! The changes that lead from a blank view to that of a machine.

ghost use Rattle.std.specs.Prelude.{◌≡◌, ◌++◌, ◌+◌, ◌<◌, ◌≤◌, ◌^◌, OnOk, string_bytes};
ghost use Rattle.machine_steps.specs.machine_theory.Processors.{word_at};
ghost use Rattle.machine_views.specs.Subjects.{processors_of};
ghost use Rattle.omega_network.specs.Networks.{net_of};
ghost use Rattle.page_command.specs.Changes.{changes_text, changes_to};
ghost use Rattle.page_command.specs.Openings.{opening_changes, processor_set, processors_set, registers_set};
ghost use Rattle.page_command.specs.Openings.{places_at, places_set, words_set};
ghost use Rattle.page_command.specs.Views.{view_at};

use crate::changes::{push_core, push_register, push_set_place, push_set_word};
use crate::step_changes::registers_of;
use machine_steps::{Machine, laws};
use std::alloc::{AllocError, Global};

/// Appends the changes that lead from a blank view to that of a machine.
///
/// # Errors
///
/// [`AllocError`] if there is no memory for them.
#[tactic(auto, unfolding(crate::specs::Openings::parts_set))]
pub fn push_opening(alloc: Global, text: &mut String, machine: &Machine) -> Result<(), AllocError>
    ensures { OnOk result (string_bytes text.new
        ≡ string_bytes text.old ++ changes_text (opening_changes machine.now)) }
{
    push_processors(alloc, text, machine)?;
    push_words(alloc, text, machine)?;
    push_places(alloc, text, machine)?;
    Ok(())
}

/// Appends the changes of all processors, and of their registers that are not 0.
fn push_processors(alloc: Global, text: &mut String, machine: &Machine) -> Result<(), AllocError>
    ensures { OnOk result (string_bytes text.new ≡ string_bytes text.old ++ changes_text (changes_to
        (view_at machine.now) (processors_set (processors_of machine.now) (2 ^ machine.now.config.k)))) }
{
    for processor in 0..machine.config().processors() {
        push_processor(alloc, text, machine, processor)?;
    }
    Ok(())
}

/// Appends the changes of a processor, and of its registers that are not 0.
fn push_processor(
    alloc: Global,
    text: &mut String,
    machine: &Machine,
    processor: u8,
) -> Result<(), AllocError>
    requires { processor < 2 ^ machine.now.config.k }
    ensures { OnOk result (string_bytes text.new ≡ string_bytes text.old ++ changes_text (changes_to
        (view_at machine.now) (processor_set processor (processors_of machine.now processor)))) }
{
    push_core(alloc, text, machine, processor)?;
    push_registers(alloc, text, machine, processor)?;
    Ok(())
}

/// Appends the changes of a processor's registers that are not 0.
fn push_registers(
    alloc: Global,
    text: &mut String,
    machine: &Machine,
    processor: u8,
) -> Result<(), AllocError>
    requires { processor < 2 ^ machine.now.config.k }
    ensures { OnOk result (string_bytes text.new ≡ string_bytes text.old ++ changes_text (changes_to
        (view_at machine.now) (registers_set processor (processors_of machine.now processor).registers 32))) }
{
    let registers = registers_of(machine, processor);
    for register in 0..32_u8 {
        let value = registers[usize::from(register)];
        push_register(alloc, text, processor, register, 0, value)?;
    }
    Ok(())
}

/// Appends the changes of all shared words that are not 0.
fn push_words(alloc: Global, text: &mut String, machine: &Machine) -> Result<(), AllocError>
    ensures { OnOk result (string_bytes text.new ≡ string_bytes text.old ++ changes_text (changes_to
        (view_at machine.now) (words_set (word_at machine.now.config.k machine.now.modules)
        machine.now.config.shared_words))) }
{
    for number in 0..machine.config().shared_words {
        push_set_word(alloc, text, machine, number)?;
    }
    Ok(())
}

/// Appends the changes of all places at which something stands.
fn push_places(alloc: Global, text: &mut String, machine: &Machine) -> Result<(), AllocError>
    ensures { OnOk result (string_bytes text.new ≡ string_bytes text.old ++ changes_text (changes_to
        (view_at machine.now) (places_set (net_of machine.now.network) (2 ^ machine.now.config.k)
        (machine.now.config.k + 1)))) }
{
    laws::machine_is_well_formed(machine);
    for depth in 0..machine.config().k + 1 {
        push_places_at(alloc, text, machine, depth)?;
    }
    Ok(())
}

/// Appends the changes of the places of a depth at which something stands.
fn push_places_at(
    alloc: Global,
    text: &mut String,
    machine: &Machine,
    depth: u8,
) -> Result<(), AllocError>
    requires { depth ≤ machine.now.config.k }
    ensures { OnOk result (string_bytes text.new ≡ string_bytes text.old ++ changes_text (changes_to
        (view_at machine.now) (places_at (net_of machine.now.network) depth (2 ^ machine.now.config.k)))) }
{
    for wire in 0..machine.config().processors() {
        push_set_place(alloc, text, machine, depth, wire)?;
    }
    Ok(())
}
