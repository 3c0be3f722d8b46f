//! The places of a network.

ghost use Rattle.std.specs.Prelude.{◌≡◌, ◌<◌, ◌≤◌, ◌^◌, IfOk, map};
ghost use Rattle.omega_network.specs.Networks.{net_of};
ghost use Rattle.machine_views.specs.Places.{place_view, place_views, places_at, records_before, reply_view};
ghost use Rattle.machine_views.specs.Places.{request_view};

use crate::groups::group_of;
use crate::row::Row;
use crate::view::{PlaceView, ReplyView, RequestView};
use messages::Record;
use omega_network::Network;
use std::alloc::{AllocError, Global};

/// The views of all places of a network, by depth, and by wire at each depth.
pub fn place_views(alloc: Global, network: &Network) -> Result<Row<Row<PlaceView>>, AllocError>
    requires { network.now.k ≤ 6 }
    ensures { IfOk result (λ places. places ≡ place_views (net_of network.now) network.now.k) }
{
    let mut places = Vec::new(alloc);
    for depth in 0..network.stages() + 1 {
        places.push(places_at(alloc, network, depth)?)?;
    }
    Ok(Row::of(places))
}

/// The views of the places at a depth, by wire.
fn places_at(alloc: Global, network: &Network, depth: u8) -> Result<Row<PlaceView>, AllocError>
    requires { depth ≤ network.now.k }
    ensures { IfOk result (λ places. places ≡ places_at (net_of network.now) network.now.k depth) }
{
    let mut places = Vec::new(alloc);
    for wire in 0..network.wires() {
        places.push(place_view(alloc, network, depth, wire)?)?;
    }
    Ok(Row::of(places))
}

/// The view of a place.
fn place_view(
    alloc: Global,
    network: &Network,
    depth: u8,
    wire: u8,
) -> Result<PlaceView, AllocError>
    requires depth { depth ≤ network.now.k }
    requires wire { wire < 2 ^ network.now.k }
    ensures { IfOk result (λ place. place ≡ place_view (net_of network.now) (2 ^ network.now.k) depth wire) }
{
    let requests = requests_at(alloc, network, depth, wire)?;
    let records = records_before(alloc, network, depth, wire)?;
    let replies = replies_at(alloc, network, depth, wire)?;
    Ok(PlaceView {
        requests,
        records,
        replies,
    })
}

/// The requests at a place.
fn requests_at(
    alloc: Global,
    network: &Network,
    depth: u8,
    wire: u8,
) -> Result<Row<RequestView>, AllocError>
    requires depth { depth ≤ network.now.k }
    requires wire { wire < 2 ^ network.now.k }
    ensures { IfOk result (λ requests. requests ≡
        map (request_view (net_of network.now) (2 ^ network.now.k) depth) ((net_of network.now).requests depth wire)) }
{
    let mut requests = Vec::new(alloc);
    while let Some(request) = network.request(depth, wire, requests.len()) {
        let group = group_of(alloc, network, depth, request.leader)?;
        requests.push(RequestView { request, group })?;
    }
    Ok(Row::of(requests))
}

/// The wait buffer of the output that goes to a place.
fn records_before(
    alloc: Global,
    network: &Network,
    depth: u8,
    wire: u8,
) -> Result<Row<Record>, AllocError>
    requires depth { depth ≤ network.now.k }
    requires wire { wire < 2 ^ network.now.k }
    ensures { IfOk result (λ records. records ≡ records_before (net_of network.now) depth wire) }
{
    let records = match depth.checked_sub(1) {
        Some(stage) => Vec::from_slice(alloc, network.records(stage, wire))?,
        None => Vec::new(alloc),
    };
    Ok(Row::of(records))
}

/// The replies at a place.
fn replies_at(
    alloc: Global,
    network: &Network,
    depth: u8,
    wire: u8,
) -> Result<Row<ReplyView>, AllocError>
    requires depth { depth ≤ network.now.k }
    requires wire { wire < 2 ^ network.now.k }
    ensures { IfOk result (λ replies. replies ≡
        map (reply_view (net_of network.now) (2 ^ network.now.k) depth) ((net_of network.now).replies depth wire)) }
{
    let mut replies = Vec::new(alloc);
    while let Some(reply) = network.reply(depth, wire, replies.len()) {
        let group = group_of(alloc, network, depth, reply.leader)?;
        replies.push(ReplyView { reply, group })?;
    }
    Ok(Row::of(replies))
}
