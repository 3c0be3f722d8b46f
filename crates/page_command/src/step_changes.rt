//! The changes of steps.

ghost use Rattle.std.specs.Prelude.{[], ◌≡◌, ◌++◌, ◌<◌, ◌^◌, ◌%◌, ◌||◌, ◌≤◌, ℕ, OnOk, slice_get, slice_index};
ghost use Rattle.std.specs.Prelude.{string_bytes, suc, true};
ghost use Rattle.steps.specs.Kinds.{is_within};
ghost use Rattle.omega_wires.specs.Wires.{bit_of_stage, wire_after};
ghost use Rattle.omega_network.specs.Networks.{net_of};
ghost use Rattle.machine_steps.specs.Machines.{machine_of};
ghost use Rattle.machine_steps.specs.machine_theory.Processors.{open_at};
ghost use Rattle.machine_views.specs.Subjects.{processors_of};
ghost use Rattle.page_command.specs.Changes.{change_text, change_to, changes_text, changes_to};
ghost use Rattle.page_command.specs.Pages.{change_lines};
ghost use Rattle.page_command.specs.Steps.{IsTaken, actor_of, changes_between, changes_from, inputs_of};
ghost use Rattle.page_command.specs.Steps.{parts_of_down, parts_of_poke, parts_of_serve, parts_of_turn, parts_of_up};
ghost use Rattle.page_command.specs.Steps.{registers_changed, slot_if};
ghost use Rattle.page_command.specs.Views.{Place, view_at};

use crate::changes::{push_core, push_place, push_register, push_shared_word};
use flat_machine::Poke;
use machine_steps::{Machine, laws};
use messages::{Reply, Request};
use omega_wires::{module_of, wire_after, wire_before};
use std::alloc::{AllocError, Global};
use steps::Step;

/// Takes these steps, and appends a line of changes for each.
///
/// # Errors
///
/// [`AllocError`] if there is no memory for the lines.
pub fn push_change_lines(
    alloc: Global,
    text: &mut String,
    machine: &mut Machine,
    steps: &[Step],
) -> Result<(), AllocError>
    ensures { OnOk result (string_bytes text.new ≡ string_bytes text.old
        ++ change_lines (changes_from machine.old.config machine.old.code (machine_of machine.old (λ p. []))
        steps.now)) }
{
    laws::answers_go_on();
    for step in steps {
        push_step(alloc, text, machine, *step)?;
        text.push_str("\n")?;
    }
    Ok(())
}

/// Takes a step, and appends its changes.
fn push_step(
    alloc: Global,
    text: &mut String,
    machine: &mut Machine,
    step: Step,
) -> Result<(), AllocError>
    ensures taken { OnOk result (IsTaken machine.old step machine.new) }
    ensures shown { OnOk result (string_bytes text.new
        ≡ string_bytes text.old ++ changes_text (changes_between machine.old machine.new step)) }
{
    laws::machine_is_well_formed(machine);
    if step.is_within(machine.config().k) {
        push_step_within(alloc, text, machine, step)
    } else {
        machine.apply(step);
        Ok(())
    }
}

/// Takes a step whose numbers the machine has, and appends its changes.
fn push_step_within(
    alloc: Global,
    text: &mut String,
    machine: &mut Machine,
    step: Step,
) -> Result<(), AllocError>
    requires { is_within machine.old.config.k step ≡ true }
    ensures taken { OnOk result (IsTaken machine.old step machine.new) }
    ensures shown { OnOk result (string_bytes text.new
        ≡ string_bytes text.old ++ changes_text (changes_between machine.old machine.new step)) }
{
    match step {
        Step::Turn(processor) => push_turn(alloc, text, machine, processor),
        Step::Up { stage, wire } => push_up(alloc, text, machine, stage, wire),
        Step::Serve(number) => push_service(alloc, text, machine, number),
        Step::Down { stage, wire } => push_down(alloc, text, machine, stage, wire),
        Step::Poke(poke) => push_poke(alloc, text, machine, poke),
    }
}

/// Takes a turn, and appends its changes.
fn push_turn(
    alloc: Global,
    text: &mut String,
    machine: &mut Machine,
    processor: u8,
) -> Result<(), AllocError>
    requires { processor < 2 ^ machine.old.config.k }
    ensures taken { OnOk result (IsTaken machine.old (Step.Turn processor) machine.new) }
    ensures shown { OnOk result (string_bytes text.new ≡ string_bytes text.old
        ++ changes_text (changes_to (view_at machine.new) (parts_of_turn processor
        (processors_of machine.old processor).registers (processors_of machine.new processor).registers
        (open_at machine.old.ports processor) (open_at machine.new.ports processor)))) }
{
    let before = registers_of(machine, processor);
    let was_open = is_open(machine, processor);
    machine.apply(Step::Turn(processor));
    push_core(alloc, text, machine, processor)?;
    push_registers(alloc, text, machine, processor, &before)?;
    let wanted = was_or_is_open(machine, processor, was_open);
    push_slot(alloc, text, machine, processor, wanted)?;
    Ok(())
}

/// Appends the change of the place beside a processor, if it is wanted.
fn push_slot(
    alloc: Global,
    text: &mut String,
    machine: &Machine,
    processor: u8,
    wanted: bool,
) -> Result<(), AllocError>
    requires { processor < 2 ^ machine.now.config.k }
    ensures { OnOk result (string_bytes text.new ≡ string_bytes text.old
        ++ changes_text (changes_to (view_at machine.now) (slot_if processor wanted))) }
{
    if wanted {
        push_place(alloc, text, machine, 0, processor)?;
    }
    Ok(())
}

/// Whether a processor had a reference open, or has one.
fn was_or_is_open(machine: &Machine, processor: u8, was_open: bool) -> bool
    requires { processor < 2 ^ machine.now.config.k }
    ensures { result ≡ (was_open || open_at machine.now.ports processor) }
{
    was_open || is_open(machine, processor)
}

/// Whether a processor has a reference open.
fn is_open(machine: &Machine, processor: u8) -> bool
    requires { processor < 2 ^ machine.now.config.k }
    ensures { result ≡ open_at machine.now.ports processor }
{
    machine.is_open(processor).unwrap_or(false)
}

/// Moves the first request on a wire, and appends the changes.
fn push_up(
    alloc: Global,
    text: &mut String,
    machine: &mut Machine,
    stage: u8,
    wire: u8,
) -> Result<(), AllocError>
    requires stage { stage < machine.old.config.k }
    requires wire { wire < 2 ^ machine.old.config.k }
    ensures taken { OnOk result (IsTaken machine.old (Step.Up stage wire) machine.new) }
    ensures shown { OnOk result (string_bytes text.new ≡ string_bytes text.old
        ++ changes_text (changes_to (view_at machine.new) (parts_of_up machine.old.config.k stage wire
        (slice_get ((net_of machine.old.network).requests stage wire) 0)))) }
{
    let request = first_request(machine, stage, wire);
    machine.apply(Step::Up { stage, wire });
    let Some(request) = request else {
        return Ok(());
    };
    push_place(alloc, text, machine, stage, wire)?;
    push_output(alloc, text, machine, stage, wire, request.word)?;
    Ok(())
}

/// Appends the change of the place behind the output through which a request for this word goes.
fn push_output(
    alloc: Global,
    text: &mut String,
    machine: &Machine,
    stage: u8,
    wire: u8,
    word: u32,
) -> Result<(), AllocError>
    requires stage { stage < machine.now.config.k }
    requires wire { wire < 2 ^ machine.now.config.k }
    ensures { OnOk result (string_bytes text.new ≡ string_bytes text.old
        ++ change_text (change_to (view_at machine.now)
        (Place (suc stage) (wire_after machine.now.config.k stage wire (word % 2 ^ machine.now.config.k))))) }
{
    laws::machine_is_well_formed(machine);
    let k = machine.config().k;
    let after = wire_after(k, stage, wire, module_of(word, k));
    push_place(alloc, text, machine, stage + 1, after)
}

/// The first request on a wire before a stage.
fn first_request(machine: &Machine, stage: u8, wire: u8) -> Option<Request>
    requires stage { stage < machine.now.config.k }
    requires wire { wire < 2 ^ machine.now.config.k }
    ensures { result ≡ slice_get ((net_of machine.now.network).requests stage wire) 0 }
{
    laws::machine_is_well_formed(machine);
    machine.network().as_network().request(stage, wire, 0)
}

/// Has a module serve its first request, and appends the changes.
fn push_service(
    alloc: Global,
    text: &mut String,
    machine: &mut Machine,
    number: u8,
) -> Result<(), AllocError>
    requires { number < 2 ^ machine.old.config.k }
    ensures taken { OnOk result (IsTaken machine.old (Step.Serve number) machine.new) }
    ensures shown { OnOk result (string_bytes text.new ≡ string_bytes text.old
        ++ changes_text (changes_to (view_at machine.new) (parts_of_serve machine.old.config.k number
        (slice_get ((net_of machine.old.network).requests machine.old.config.k number) 0)))) }
{
    let request = first_request_at(machine, number);
    machine.apply(Step::Serve(number));
    let Some(request) = request else {
        return Ok(());
    };
    push_module(alloc, text, machine, number)?;
    push_shared_word(alloc, text, machine, request.word)?;
    Ok(())
}

/// The first request at a module.
fn first_request_at(machine: &Machine, number: u8) -> Option<Request>
    requires { number < 2 ^ machine.now.config.k }
    ensures { result ≡ slice_get ((net_of machine.now.network).requests machine.now.config.k number) 0 }
{
    laws::machine_is_well_formed(machine);
    let k = machine.config().k;
    machine.network().as_network().request(k, number, 0)
}

/// Appends the change of the place at a module.
fn push_module(
    alloc: Global,
    text: &mut String,
    machine: &Machine,
    number: u8,
) -> Result<(), AllocError>
    requires { number < 2 ^ machine.now.config.k }
    ensures { OnOk result (string_bytes text.new ≡ string_bytes text.old
        ++ change_text (change_to (view_at machine.now) (Place machine.now.config.k number))) }
{
    push_place(alloc, text, machine, machine.config().k, number)
}

/// Has the first reply on a wire answered, and appends the changes.
fn push_down(
    alloc: Global,
    text: &mut String,
    machine: &mut Machine,
    stage: u8,
    wire: u8,
) -> Result<(), AllocError>
    requires stage { stage < machine.old.config.k }
    requires wire { wire < 2 ^ machine.old.config.k }
    ensures taken { OnOk result (IsTaken machine.old (Step.Down stage wire) machine.new) }
    ensures shown { OnOk result (string_bytes text.new ≡ string_bytes text.old
        ++ changes_text (changes_to (view_at machine.new) (parts_of_down machine.old.config.k stage wire
        (slice_get ((net_of machine.old.network).replies (suc stage) wire) 0)))) }
{
    let reply = first_reply(machine, stage, wire);
    machine.apply(Step::Down { stage, wire });
    let Some(_reply) = reply else {
        return Ok(());
    };
    push_behind(alloc, text, machine, stage, wire)?;
    push_inputs(alloc, text, machine, stage, wire)?;
    Ok(())
}

/// The first reply on a wire after a stage.
fn first_reply(machine: &Machine, stage: u8, wire: u8) -> Option<Reply>
    requires stage { stage < machine.now.config.k }
    requires wire { wire < 2 ^ machine.now.config.k }
    ensures { result ≡ slice_get ((net_of machine.now.network).replies (suc stage) wire) 0 }
{
    laws::machine_is_well_formed(machine);
    machine.network().as_network().reply(stage + 1, wire, 0)
}

/// Appends the change of the place on a wire after a stage.
fn push_behind(
    alloc: Global,
    text: &mut String,
    machine: &Machine,
    stage: u8,
    wire: u8,
) -> Result<(), AllocError>
    requires stage { stage < machine.now.config.k }
    requires wire { wire < 2 ^ machine.now.config.k }
    ensures { OnOk result (string_bytes text.new ≡ string_bytes text.old
        ++ change_text (change_to (view_at machine.now) (Place (suc stage) wire))) }
{
    laws::machine_is_well_formed(machine);
    push_place(alloc, text, machine, stage + 1, wire)
}

/// Appends the changes of the places at both inputs of the switch that has an output to a wire.
fn push_inputs(
    alloc: Global,
    text: &mut String,
    machine: &Machine,
    stage: u8,
    wire: u8,
) -> Result<(), AllocError>
    requires stage { stage < machine.now.config.k }
    requires wire { wire < 2 ^ machine.now.config.k }
    ensures { OnOk result (string_bytes text.new ≡ string_bytes text.old ++ changes_text (changes_to
        (view_at machine.now) (inputs_of machine.now.config.k stage wire))) }
{
    laws::machine_is_well_formed(machine);
    let k = machine.config().k;
    let one = wire_before(k, stage, wire, 0);
    let other = wire_before(k, stage, wire, stage_bit(k, stage));
    push_place(alloc, text, machine, stage, one)?;
    push_place(alloc, text, machine, stage, other)?;
    Ok(())
}

/// The number of a processor whose replies the switches of a stage send out at their second inputs.
fn stage_bit(k: u8, stage: u8) -> u8
    requires stages { k ≤ 6 }
    requires stage { stage < k }
    ensures { result ≡ 2 ^ bit_of_stage k stage }
{
    1 << (k - 1 - stage)
}

/// Writes from outside, and appends the changes.
fn push_poke(
    alloc: Global,
    text: &mut String,
    machine: &mut Machine,
    poke: Poke,
) -> Result<(), AllocError>
    requires { is_within machine.old.config.k (Step.Poke poke) ≡ true }
    ensures taken { OnOk result (IsTaken machine.old (Step.Poke poke) machine.new) }
    ensures shown { OnOk result (string_bytes text.new ≡ string_bytes text.old
        ++ changes_text (changes_to (view_at machine.new) (parts_of_poke poke
        (processors_of machine.old (actor_of (Step.Poke poke))).registers
        (processors_of machine.new (actor_of (Step.Poke poke))).registers))) }
{
    match poke {
        Poke::Register { processor, .. } => {
            let before = registers_of(machine, processor);
            machine.apply(Step::Poke(poke));
            push_core(alloc, text, machine, processor)?;
            push_registers(alloc, text, machine, processor, &before)?;
        }
        Poke::Local { processor, .. } => {
            machine.apply(Step::Poke(poke));
            push_core(alloc, text, machine, processor)?;
        }
        Poke::Shared { address, .. } => {
            machine.apply(Step::Poke(poke));
            push_shared_word(
                alloc,
                text,
                machine,
                address.saturating_sub(0x8000_0000) / 4,
            )?;
        }
    }
    Ok(())
}

/// Appends the changes of the registers whose values are not those before.
fn push_registers(
    alloc: Global,
    text: &mut String,
    machine: &Machine,
    processor: u8,
    before: &[u32; 32],
) -> Result<(), AllocError>
    requires { processor < 2 ^ machine.now.config.k }
    ensures { OnOk result (string_bytes text.new ≡ string_bytes text.old
        ++ changes_text (changes_to (view_at machine.now) (registers_changed processor before.now
        (processors_of machine.now processor).registers 32))) }
{
    let after = registers_of(machine, processor);
    for register in 0..32_u8 {
        let place = usize::from(register);
        push_register(
            alloc,
            text,
            processor,
            register,
            before[place],
            after[place],
        )?;
    }
    Ok(())
}

/// The registers of a processor. If its core is away, they are 0.
pub fn registers_of(machine: &Machine, processor: u8) -> [u32; 32]
    requires { processor < 2 ^ machine.now.config.k }
    ensures { (r : ℕ) → slice_index result r ≡ slice_index (processors_of machine.now processor).registers r }
{
    match machine.core(processor) {
        Some(core) => *core.registers(),
        None => [0; 32],
    }
}
