//! The texts of changes.

ghost use Rattle.std.specs.Prelude.{[], ◌≡◌, ◌==◌, ◌++◌, ◌<◌, ◌≤◌, ◌^◌, OnOk, if◌then◌else◌, slice_get, string_bytes};
ghost use Rattle.std.specs.List.{flat_map};
ghost use Rattle.omega_network.specs.Networks.{net_of};
ghost use Rattle.machine_steps.specs.machine_theory.Processors.{open_at, word_at};
ghost use Rattle.machine_views.specs.Places.{records_before};
ghost use Rattle.machine_views.specs.Subjects.{processors_of};
ghost use Rattle.page_command.specs.Changes.{change_text, change_to, content_text, record_item, reply_item};
ghost use Rattle.page_command.specs.Changes.{request_item, status_suffix, word_suffix};
ghost use Rattle.page_command.specs.Openings.{is_clear};
ghost use Rattle.page_command.specs.Views.{Core, Messages, Place, Register, Stands, Value, Word, view_at, word_open};

use command_io::{push_status, push_word};
use flat_machine::Status;
use machine_steps::{Machine, laws};
use machine_views::subject_of;
use messages::{Record, Reply, Request};
use omega_network::Network;
use std::alloc::{AllocError, Global};
use std::fmt::Write;
use steps::Step;
use trace_lines::push_function;

/// Appends the change of a processor: its `pc`, its status, and the word of its reference if one is open.
#[tactic(auto, unfolding(crate::specs::Views::view_by))]
pub fn push_core(
    alloc: Global,
    text: &mut String,
    machine: &Machine,
    processor: u8,
) -> Result<(), AllocError>
    requires { processor < 2 ^ machine.now.config.k }
    ensures { OnOk result (string_bytes text.new
        ≡ string_bytes text.old ++ change_text (change_to (view_at machine.now) (Core processor))) }
{
    let (pc, status) = match machine.core(processor) {
        Some(core) => (core.pc(), core.status()),
        None => (0, Status::Halted(0)),
    };
    let word = word_open(machine, processor);
    write!(text, "{processor}=")?;
    push_stand(alloc, text, pc, status, word)?;
    text.push('\t')
}

/// Appends what a processor does.
fn push_stand(
    alloc: Global,
    text: &mut String,
    pc: u32,
    status: Status,
    word: Option<u32>,
) -> Result<(), AllocError>
    ensures { OnOk result (string_bytes text.new ≡ string_bytes text.old ++ content_text (Stands pc status word)) }
{
    push_word(alloc, text, pc)?;
    push_stop(alloc, text, status)?;
    match word {
        Some(word) => write!(text, " {word}"),
        None => Ok(()),
    }
}

/// Appends how a processor has stopped, and nothing if it runs.
fn push_stop(alloc: Global, text: &mut String, status: Status) -> Result<(), AllocError>
    ensures { OnOk result (string_bytes text.new ≡ string_bytes text.old ++ status_suffix status) }
{
    match status {
        Status::Running => (),
        Status::Halted(_) | Status::Faulted(_) => {
            text.push(' ')?;
            push_status(alloc, text, status)?;
        }
    }
    Ok(())
}

/// The word of a processor's reference, if it is open.
fn word_open(machine: &Machine, processor: u8) -> Option<u32>
    requires { processor < 2 ^ machine.now.config.k }
    ensures { result ≡ word_open machine.now.config machine.now.code (open_at machine.now.ports processor) processor
        (processors_of machine.now processor) }
{
    if machine.is_open(processor).unwrap_or(false) {
        subject_of(machine, &Step::Turn(processor)).word
    } else {
        None
    }
}

/// Appends the change of a register from one value to another, unless they are the same.
pub fn push_register(
    alloc: Global,
    text: &mut String,
    processor: u8,
    register: u8,
    before: u32,
    after: u32,
) -> Result<(), AllocError>
    ensures { OnOk result (string_bytes text.new ≡ string_bytes text.old ++ (if after == before then []
        else change_text (record { part = Register processor register; content = Value after }))) }
{
    if after == before {
        return Ok(());
    }
    write!(text, "{processor}x{register}=")?;
    push_word(alloc, text, after)?;
    text.push('\t')
}

/// Appends the change of a shared word to what its module holds.
#[tactic(auto, unfolding(crate::specs::Views::view_by))]
pub fn push_shared_word(
    alloc: Global,
    text: &mut String,
    machine: &Machine,
    number: u32,
) -> Result<(), AllocError>
    ensures { OnOk result (string_bytes text.new
        ≡ string_bytes text.old ++ change_text (change_to (view_at machine.now) (Word number))) }
{
    laws::machine_is_well_formed(machine);
    let value = machine.word(number).unwrap_or(0);
    write!(text, "w{number}=")?;
    push_word(alloc, text, value)?;
    text.push('\t')
}

/// Appends the change of a shared word to what its module holds, unless that is 0.
pub fn push_set_word(
    alloc: Global,
    text: &mut String,
    machine: &Machine,
    number: u32,
) -> Result<(), AllocError>
    ensures { OnOk result (string_bytes text.new ≡ string_bytes text.old
        ++ (if word_at machine.now.config.k machine.now.modules number == 0 then []
        else change_text (change_to (view_at machine.now) (Word number)))) }
{
    laws::machine_is_well_formed(machine);
    if machine.word(number).unwrap_or(0) == 0 {
        return Ok(());
    }
    push_shared_word(alloc, text, machine, number)
}

/// Appends the change of a place, unless nothing stands there.
pub fn push_set_place(
    alloc: Global,
    text: &mut String,
    machine: &Machine,
    depth: u8,
    wire: u8,
) -> Result<(), AllocError>
    requires depth { depth ≤ machine.now.config.k }
    requires wire { wire < 2 ^ machine.now.config.k }
    ensures { OnOk result (string_bytes text.new ≡ string_bytes text.old
        ++ (if is_clear (net_of machine.now.network) depth wire then []
        else change_text (change_to (view_at machine.now) (Place depth wire)))) }
{
    if is_clear(machine, depth, wire) {
        return Ok(());
    }
    push_place(alloc, text, machine, depth, wire)
}

/// Whether nothing stands at a place.
fn is_clear(machine: &Machine, depth: u8, wire: u8) -> bool
    requires depth { depth ≤ machine.now.config.k }
    requires wire { wire < 2 ^ machine.now.config.k }
    ensures { result ≡ is_clear (net_of machine.now.network) depth wire }
{
    laws::machine_is_well_formed(machine);
    let network = machine.network().as_network();
    network.request(depth, wire, 0).is_none()
        && first_record(network, depth, wire).is_none()
        && network.reply(depth, wire, 0).is_none()
}

/// The first record before a depth on a wire.
fn first_record(network: &Network, depth: u8, wire: u8) -> Option<Record>
    requires depth { depth ≤ network.now.k }
    requires wire { wire < 2 ^ network.now.k }
    ensures { result ≡ slice_get (records_before (net_of network.now) depth wire) 0 }
{
    match depth.checked_sub(1) {
        Some(stage) => network.records(stage, wire).first().copied(),
        None => None,
    }
}

/// Appends the change of a place: all its messages.
#[tactic(auto, unfolding(crate::specs::Views::view_by))]
pub fn push_place(
    alloc: Global,
    text: &mut String,
    machine: &Machine,
    depth: u8,
    wire: u8,
) -> Result<(), AllocError>
    requires depth { depth ≤ machine.now.config.k }
    requires wire { wire < 2 ^ machine.now.config.k }
    ensures { OnOk result (string_bytes text.new
        ≡ string_bytes text.old ++ change_text (change_to (view_at machine.now) (Place depth wire))) }
{
    laws::machine_is_well_formed(machine);
    write!(text, "{depth}.{wire}=")?;
    push_messages(alloc, text, machine.network().as_network(), depth, wire)?;
    text.push('\t')
}

/// Appends the messages of a place.
fn push_messages(
    alloc: Global,
    text: &mut String,
    network: &Network,
    depth: u8,
    wire: u8,
) -> Result<(), AllocError>
    requires depth { depth ≤ network.now.k }
    requires wire { wire < 2 ^ network.now.k }
    ensures { OnOk result (string_bytes text.new ≡ string_bytes text.old ++ content_text
        (Messages ((net_of network.now).requests depth wire) (records_before (net_of network.now) depth wire)
        ((net_of network.now).replies depth wire))) }
{
    push_requests(alloc, text, network, depth, wire)?;
    match depth.checked_sub(1) {
        Some(stage) => push_records(alloc, text, network.records(stage, wire))?,
        None => (),
    }
    push_replies(alloc, text, network, depth, wire)
}

/// Appends the requests of a place, the first to go on first.
fn push_requests(
    alloc: Global,
    text: &mut String,
    network: &Network,
    depth: u8,
    wire: u8,
) -> Result<(), AllocError>
    requires depth { depth ≤ network.now.k }
    requires wire { wire < 2 ^ network.now.k }
    ensures { OnOk result (string_bytes text.new
        ≡ string_bytes text.old ++ flat_map request_item ((net_of network.now).requests depth wire)) }
{
    let mut place = 0;
    while let Some(request) = network.request(depth, wire, place) {
        push_request(alloc, text, &request)?;
        place += 1;
    }
    Ok(())
}

/// Appends a request.
fn push_request(alloc: Global, text: &mut String, request: &Request) -> Result<(), AllocError>
    ensures { OnOk result (string_bytes text.new ≡ string_bytes text.old ++ request_item request.now) }
{
    text.push('?')?;
    push_function(alloc, text, &request.phi)?;
    let word = request.word;
    let leader = request.leader;
    write!(text, "@{word}:{leader}")
}

/// Appends records, the oldest first.
fn push_records(alloc: Global, text: &mut String, records: &[Record]) -> Result<(), AllocError>
    ensures { OnOk result (string_bytes text.new ≡ string_bytes text.old ++ flat_map record_item records.now) }
{
    for kept in records {
        push_record(alloc, text, kept)?;
    }
    Ok(())
}

/// Appends a record.
fn push_record(alloc: Global, text: &mut String, kept: &Record) -> Result<(), AllocError>
    ensures { OnOk result (string_bytes text.new ≡ string_bytes text.old ++ record_item kept.now) }
{
    let second = kept.second;
    let leader = kept.leader;
    write!(text, "&{second},{leader}:")?;
    push_function(alloc, text, &kept.phi)
}

/// Appends the replies of a place, the first to go on first.
fn push_replies(
    alloc: Global,
    text: &mut String,
    network: &Network,
    depth: u8,
    wire: u8,
) -> Result<(), AllocError>
    requires depth { depth ≤ network.now.k }
    requires wire { wire < 2 ^ network.now.k }
    ensures { OnOk result (string_bytes text.new
        ≡ string_bytes text.old ++ flat_map reply_item ((net_of network.now).replies depth wire)) }
{
    let mut place = 0;
    while let Some(reply) = network.reply(depth, wire, place) {
        push_reply(alloc, text, reply)?;
        place += 1;
    }
    Ok(())
}

/// Appends a reply.
fn push_reply(alloc: Global, text: &mut String, reply: Reply) -> Result<(), AllocError>
    ensures { OnOk result (string_bytes text.new ≡ string_bytes text.old ++ reply_item reply) }
{
    text.push('!')?;
    push_word(alloc, text, reply.value)?;
    let leader = reply.leader;
    write!(text, ":{leader}")
}
