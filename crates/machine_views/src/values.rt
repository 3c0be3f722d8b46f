//! The values that steps tell.

ghost use Rattle.std.specs.Prelude.{◌≡◌, ◌<◌, ◌≤◌, ◌^◌, slice_get, suc, true};
ghost use Rattle.steps.specs.Kinds.{is_within};
ghost use Rattle.machine_steps.specs.Machines.{MachineLists};
ghost use Rattle.machine_steps.specs.machine_theory.Processors.{word_at};
ghost use Rattle.omega_network.specs.Networks.{net_of};
ghost use Rattle.machine_views.specs.Values.{answered_at, joined, joined_at, record_of, reply_of, request_of};
ghost use Rattle.machine_views.specs.Values.{sent, served, value_of, values_of, values_within};

use machine_steps::{Machine, laws};
use messages::{Record, Reply, Request, Seconds};
use omega_network::Network;
use omega_wires::{module_of, wire_after, wire_before};
use steps::{Outcome, Step};
use trace_lines::{Reference, Values};

/// The values that a step about this word tells, from the machine after it.
pub fn values_of(machine: &Machine, word: Option<u32>, step: &Step, outcome: &Outcome) -> Values
    ensures { result ≡ values_of machine.now.config (net_of machine.now.network)
        (word_at machine.now.config.k machine.now.modules) word step.now outcome.now }
{
    if step.is_within(machine.config().k) {
        values_within(machine, word, step, outcome)
    } else {
        Values::Nothing
    }
}

/// The values that a step tells, if the machine has the numbers that it names.
fn values_within(machine: &Machine, word: Option<u32>, step: &Step, outcome: &Outcome) -> Values
    requires { is_within machine.now.config.k step.now ≡ true }
    ensures { result ≡ values_within machine.now.config.k (net_of machine.now.network)
        (word_at machine.now.config.k machine.now.modules) word step.now outcome.now }
{
    laws::machine_is_well_formed(machine);
    let network = machine.network().as_network();
    match (*step, outcome) {
        (Step::Turn(p), Outcome::Issued) => sent(network.request(0, p, 0)),
        (Step::Up { stage, wire }, Outcome::Combined { first, second }) => {
            joined_at(network, stage, wire, *first, *second, word)
        }
        (Step::Serve(m), Outcome::Served { .. }) => {
            served(machine, word, network.reply(machine.config().k, m, 0))
        }
        (Step::Down { stage, wire }, Outcome::Answered { to }) => {
            answered_at(network, stage, wire, to)
        }
        _ => Values::Nothing,
    }
}

/// What a turn has sent: the request that stands in the processor's slot.
fn sent(request: Option<Request>) -> Values
    ensures { result ≡ sent request }
{
    match request {
        Some(Request { phi, word, .. }) => Values::Sent { phi, word },
        None => Values::Nothing,
    }
}

/// What is told of a request for this word that was combined with that of the first leader.
fn joined_at(
    network: &Network,
    stage: u8,
    wire: u8,
    first: u8,
    second: u8,
    word: Option<u32>,
) -> Values
    requires stages { network.now.k ≤ 6 }
    requires stage { stage < network.now.k }
    requires wire { wire < 2 ^ network.now.k }
    ensures { result ≡ joined_at network.now.k (net_of network.now) stage wire first second word }
{
    let Some(word) = word else {
        return Values::Nothing;
    };
    let k = network.stages();
    let out = wire_after(k, stage, wire, module_of(word, k));
    let request = request_of(network, stage, out, first);
    joined(request, record_of(network.records(stage, out), second))
}

/// What is told of a request into which another was combined, and of the record of it.
fn joined(request: Option<Request>, kept: Option<Record>) -> Values
    ensures { result ≡ joined request kept }
{
    match (request, kept) {
        (Some(request), Some(kept)) => Values::Joined {
            both: request.phi,
            kept: kept.phi,
        },
        _ => Values::Nothing,
    }
}

/// What is told of a service for this word, by the reply to it.
fn served(machine: &Machine, word: Option<u32>, reply: Option<Reply>) -> Values
    ensures { result ≡ served (word_at machine.now.config.k machine.now.modules) word reply }
{
    laws::machine_is_well_formed(machine);
    match (word, reply) {
        (Some(word), Some(reply)) => Values::Served(Reference {
            word,
            before: reply.value,
            after: machine.word(word).unwrap_or(0),
        }),
        _ => Values::Nothing,
    }
}

/// What the seconds get whose replies were split off on a wire after a stage.
fn answered_at(network: &Network, stage: u8, wire: u8, to: &Seconds) -> Values
    requires stages { network.now.k ≤ 6 }
    requires stage { stage < network.now.k }
    requires wire { wire < 2 ^ network.now.k }
    ensures { result ≡ answered_at network.now.k (net_of network.now) stage wire to.now }
{
    match *to {
        Seconds::One(one) => Values::Answered {
            first: value_of(network, stage, wire, one),
            second: None,
            third: None,
        },
        Seconds::Two(one, two) => Values::Answered {
            first: value_of(network, stage, wire, one),
            second: value_of(network, stage, wire, two),
            third: None,
        },
        Seconds::Three(one, two, three) => Values::Answered {
            first: value_of(network, stage, wire, one),
            second: value_of(network, stage, wire, two),
            third: value_of(network, stage, wire, three),
        },
    }
}

/// The value of the reply to a second that was split off on a wire after a stage.
fn value_of(network: &Network, stage: u8, wire: u8, second: u8) -> Option<u32>
    requires stages { network.now.k ≤ 6 }
    requires stage { stage < network.now.k }
    requires wire { wire < 2 ^ network.now.k }
    ensures { result ≡ value_of network.now.k (net_of network.now) stage wire second }
{
    let before = wire_before(network.stages(), stage, wire, second);
    let reply = reply_of(network, stage, before, second)?;
    Some(reply.value)
}

/// The request of a leader in the queue after a stage.
fn request_of(network: &Network, stage: u8, wire: u8, leader: u8) -> Option<Request>
    requires stages { network.now.k ≤ 6 }
    requires stage { stage < network.now.k }
    requires wire { wire < 2 ^ network.now.k }
    ensures { result ≡ request_of leader ((net_of network.now).requests (suc stage) wire) }
{
    for place in 0..network.request_count(stage, wire) {
        let request = network.request(stage + 1, wire, place)?;
        if request.leader == leader {
            return Some(request);
        }
    }
    None
}

/// The reply to a leader in the queue before a stage.
fn reply_of(network: &Network, stage: u8, wire: u8, leader: u8) -> Option<Reply>
    requires stage { stage < network.now.k }
    requires wire { wire < 2 ^ network.now.k }
    ensures { result ≡ reply_of leader ((net_of network.now).replies stage wire) }
{
    for place in 0..network.reply_count(stage, wire) {
        let reply = network.reply(stage, wire, place)?;
        if reply.leader == leader {
            return Some(reply);
        }
    }
    None
}

/// The record by which the reply of a second is split off.
fn record_of(records: &[Record], second: u8) -> Option<Record>
    ensures { result ≡ record_of second records.now }
{
    records
        .iter()
        .copied()
        .find(|record| record.second == second)
}
