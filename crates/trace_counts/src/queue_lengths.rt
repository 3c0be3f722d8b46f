//! The lengths of a network's queues at the ends of rounds.

ghost use Rattle.std.specs.Prelude.{◌≡◌, ◌<◌, ◌^◌, ◌++◌, IfOk, OnOk};
ghost use Rattle.machine_steps.specs.Runs.{IsRun};
ghost use Rattle.omega_network.specs.Networks.{net_of};
ghost use Rattle.trace_counts.specs.QueueLengths.{holds_any, lengths_at, lengths_before, queue_lengths};
ghost use Rattle.trace_counts.specs.QueueLengths.{stage_lengths, total_at, waiting};

use crate::longest::count;
use machine_steps::{Machine, laws};
use omega_network::Network;
use run_counts::{Begun, Held, StageLengths, rounds_after};
use std::alloc::{AllocError, Global};
use steps::Step;

/// Takes these steps, and finds the lengths of the network's queues at the end of each round of the sweep that they
/// begin: of all queues of one stage together, for each stage where anything waits. The last round ends with the steps.
///
/// # Errors
///
/// [`AllocError`] if there is no memory for the lengths.
pub fn find_queue_lengths(
    alloc: Global,
    machine: &mut Machine,
    steps: &[Step],
) -> Result<Vec<StageLengths>, AllocError>
    ensures run { OnOk result (IsRun machine.old steps.now machine.new) }
    ensures lengths { IfOk result (λ found. found.items ≡ queue_lengths machine.old steps.now) }
{
    laws::answers_go_on();
    let mut lengths = Vec::new(alloc);
    let mut begun = Begun {
        count: 0,
        last: None,
    };
    for step in steps {
        let next = rounds_after(begun, step);
        push_ended(&mut lengths, machine, begun.count, next.count)?;
        begun = next;
        machine.apply(*step);
    }
    push_lengths(&mut lengths, machine, begun.count)?;
    Ok(lengths)
}

/// Appends the lengths in the network as it stands, if a round ends now: if the round of the next step is another one.
fn push_ended(
    lengths: &mut Vec<StageLengths>,
    machine: &Machine,
    round: usize,
    next: usize,
) -> Result<(), AllocError>
    ensures { OnOk result (lengths.new.items ≡ lengths.old.items
        ++ lengths_before machine.now.config.k (net_of machine.now.network) round next) }
{
    if round < next {
        push_lengths(lengths, machine, round)
    } else {
        Ok(())
    }
}

/// Appends the lengths in the network as it stands, at the end of this round.
fn push_lengths(
    lengths: &mut Vec<StageLengths>,
    machine: &Machine,
    round: usize,
) -> Result<(), AllocError>
    ensures { OnOk result (lengths.new.items ≡ lengths.old.items
        ++ lengths_at machine.now.config.k (net_of machine.now.network) round machine.now.config.k) }
{
    laws::machine_is_well_formed(machine);
    let stages = machine.config().k;
    for stage in 0..stages {
        let network = machine.network().as_network();
        let found = lengths_of(network, 1 << stages, round, stage)?;
        push_waiting(lengths, found)?;
    }
    Ok(())
}

/// Appends the lengths of a stage, if anything waits there.
fn push_waiting(lengths: &mut Vec<StageLengths>, found: StageLengths) -> Result<(), AllocError>
    ensures { OnOk result (lengths.new.items ≡ lengths.old.items ++ waiting found) }
{
    if holds_any(&found) {
        lengths.push(found)?;
    }
    Ok(())
}

/// Whether anything waits.
fn holds_any(lengths: &StageLengths) -> bool
    ensures { result ≡ holds_any lengths.now }
{
    0 < lengths.requests || 0 < lengths.records || 0 < lengths.replies
}

/// The lengths at a stage, at the end of this round.
fn lengths_of(
    network: &Network,
    wires: u8,
    round: usize,
    stage: u8,
) -> Result<StageLengths, AllocError>
    requires stage { stage < network.now.k }
    requires wires { wires ≡ 2 ^ network.now.k }
    ensures { IfOk result (λ found. found ≡ stage_lengths network.now.k (net_of network.now) round stage) }
{
    Ok(StageLengths {
        round,
        stage,
        requests: total(network, Held::Requests, stage, wires)?,
        records: total(network, Held::Records, stage, wires)?,
        replies: total(network, Held::Replies, stage, wires)?,
    })
}

/// How many messages or records all wires of a stage have. A sum that is out of range, which no memory can hold, is
/// refused as out of memory.
fn total(network: &Network, held: Held, stage: u8, wires: u8) -> Result<usize, AllocError>
    requires stage { stage < network.now.k }
    requires wires { wires ≡ 2 ^ network.now.k }
    ensures { IfOk result (λ total. total ≡ total_at network.now.k (net_of network.now) held stage) }
{
    let mut total: usize = 0;
    for wire in 0..wires {
        match total.checked_add(count(network, held, stage, wire)) {
            Some(sum) => total = sum,
            None => return Err(AllocError),
        }
    }
    Ok(total)
}
