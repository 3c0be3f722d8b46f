//! The processors that messages stand for.

ghost use Rattle.std.specs.Prelude.{◌≡◌, ◌++◌, ◌<◌, ◌≤◌, ◌^◌, IfOk, OnOk};
ghost use Rattle.omega_network.specs.Networks.{net_of};
ghost use Rattle.machine_views.specs.Groups.{group_of, seconds_at, seconds_in, split_at};

use crate::row::Row;
use messages::Record;
use omega_network::Network;
use std::alloc::{AllocError, Global};

/// The processors that a message of this leader stands for at a depth: the leader, and all for whom its reply is split
/// on the way down from there, in the order in which they are served.
pub fn group_of(
    alloc: Global,
    network: &Network,
    depth: u8,
    leader: u8,
) -> Result<Row<u8>, AllocError>
    requires { depth ≤ network.now.k }
    ensures { IfOk result (λ group. group ≡ group_of (net_of network.now) (2 ^ network.now.k) depth leader) }
{
    let mut stage = depth;
    let mut members = Vec::from_slice(alloc, &[leader])?;
    while stage > 0 {
        stage -= 1;
        members = split_at(alloc, network, stage, members.as_slice())?;
    }
    Ok(Row::of(members))
}

/// The leaders of replies after a stage, given their leaders before it.
fn split_at(
    alloc: Global,
    network: &Network,
    stage: u8,
    leaders: &[u8],
) -> Result<Vec<u8>, AllocError>
    requires { stage < network.now.k }
    ensures { IfOk result (λ all. all.items ≡ split_at (net_of network.now) (2 ^ network.now.k) stage leaders.now) }
{
    let mut all = Vec::new(alloc);
    for leader in leaders {
        all.push(*leader)?;
        push_seconds(network, stage, *leader, &mut all)?;
    }
    Ok(all)
}

/// Appends the seconds of the records that a leader has at a stage.
fn push_seconds(
    network: &Network,
    stage: u8,
    leader: u8,
    all: &mut Vec<u8>,
) -> Result<(), AllocError>
    requires { stage < network.now.k }
    ensures { OnOk result (all.new.items ≡ all.old.items
        ++ seconds_at (net_of network.now) stage leader (2 ^ network.now.k)) }
{
    for wire in 0..network.wires() {
        push_seconds_of(network.records(stage, wire), leader, all)?;
    }
    Ok(())
}

/// Appends the seconds of the records that a leader has among these.
fn push_seconds_of(records: &[Record], leader: u8, all: &mut Vec<u8>) -> Result<(), AllocError>
    ensures { OnOk result (all.new.items ≡ all.old.items ++ seconds_in leader records.now) }
{
    for record in records {
        if record.leader == leader {
            all.push(record.second)?;
        }
    }
    Ok(())
}
