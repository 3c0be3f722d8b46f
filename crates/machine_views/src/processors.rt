//! The view of a machine.

ghost use Rattle.std.specs.Prelude.{◌≡◌, ◌<◌, ◌≤◌, ◌^◌, IfOk};
ghost use Rattle.std.specs.Option.{option_map};
ghost use Rattle.flat_machine.specs.Turns.{turn_of};
ghost use Rattle.flat_machine.specs.declared.setting.Setting.{Setting};
ghost use Rattle.trace_lines.specs.References.{word_of_turn};
ghost use Rattle.machine_views.specs.Places.{each_below};
ghost use Rattle.machine_views.specs.Views.{next_word, processor_view, shared_word, view_of, word_referred};

use crate::places::place_views;
use crate::row::Row;
use crate::view::{MachineView, ProcessorView, SharedWord};
use flat_machine::Status;
use hart::Core;
use local_memory::Code;
use machine_steps::{Machine, laws};
use std::alloc::{AllocError, Global};
use trace_lines::word_of_instruction;

/// The view of a machine that has taken this many steps. A processor whose core is away shows as halted, with `pc` 0.
///
/// # Errors
///
/// [`AllocError`] if there is no memory for the view.
pub fn view_of(alloc: Global, machine: &Machine, steps: usize) -> Result<MachineView, AllocError>
    ensures { IfOk result (λ view. view ≡ view_of machine.now steps) }
{
    laws::machine_is_well_formed(machine);
    let processors = processor_views(alloc, machine)?;
    let places = place_views(alloc, machine.network().as_network())?;
    Ok(MachineView {
        config: machine.config(),
        steps,
        processors,
        places,
    })
}

/// What each processor does.
fn processor_views(alloc: Global, machine: &Machine) -> Result<Row<ProcessorView>, AllocError>
    ensures { IfOk result (λ processors. processors
        ≡ each_below (processor_view machine.now) (2 ^ machine.now.config.k)) }
{
    let mut processors = Vec::new(alloc);
    for p in 0..machine.config().processors() {
        processors.push(processor_view(machine, p))?;
    }
    Ok(Row::of(processors))
}

/// What a processor does.
fn processor_view(machine: &Machine, processor: u8) -> ProcessorView
    requires { processor < 2 ^ machine.now.config.k }
    ensures { result ≡ processor_view machine.now processor }
{
    let (pc, status) = match machine.core(processor) {
        Some(core) => (core.pc(), core.status()),
        None => (0, Status::Halted(0)),
    };
    ProcessorView {
        pc,
        status,
        is_open: machine.is_open(processor).unwrap_or(false),
        word: word_referred(machine, processor),
    }
}

/// The shared word of a processor's open reference, if one is open.
fn word_referred(machine: &Machine, processor: u8) -> Option<SharedWord>
    requires { processor < 2 ^ machine.now.config.k }
    ensures { result ≡ word_referred machine.now processor }
{
    if machine.is_open(processor).unwrap_or(false) {
        let number = next_word(machine, processor)?;
        Some(shared_word(machine, number))
    } else {
        None
    }
}

/// A shared word, with the value that its module holds.
fn shared_word(machine: &Machine, number: u32) -> SharedWord
    ensures { result ≡ shared_word machine.now number }
{
    laws::machine_is_well_formed(machine);
    SharedWord {
        number,
        value: machine.word(number).unwrap_or(0),
    }
}

/// The shared word that the next turn of a processor acts on, if any.
#[tactic(auto, unfolding(flat_machine::specs::Turns::fetched))]
pub(crate) fn next_word(machine: &Machine, processor: u8) -> Option<u32>
    ensures { result ≡ next_word machine.now processor }
{
    match machine.core(processor) {
        Some(core) => word_of_core(core, machine.code(), machine.config().shared_words),
        None => None,
    }
}

/// The shared word that the next turn of a core acts on, in a machine of this many shared words.
fn word_of_core(core: &Core, code: &Code, shared_words: u32) -> Option<u32>
    requires { shared_words ≤ 262144 }
    ensures { (s : Setting) → s.shared_words ≡ shared_words →
        result ≡ word_of_turn (turn_of s code.now core.now.state) }
{
    match code.fetch(core.pc()) {
        Ok(insn) => word_of_instruction(&insn, core.registers(), shared_words),
        Err(_) => None,
    }
}
