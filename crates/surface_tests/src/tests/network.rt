//! Wires, the records of an output, one switch, and a network of one stage.

ghost use Rattle.std.specs.Prelude.{◌≡◌};
ghost use Rattle.combining_switch.specs.Pools.{empty_pool};
ghost use Rattle.combining_switch.specs.Switches.{new_switch};

use combining_switch::{Accepted, Answered, Pool, Switch};
use omega_network::{DownMove, Network, Record, Reply, Request, Seconds, UpMove};
use omega_wires::{
    WireSet, bit, input_port, module_of, path, rotate_left, rotate_right, switch_of, wire_after,
    wire_before,
};
use phi_algebra::Phi;
use std::process::Abort;
use std::test::Fail;
use test_support::{assert_same, lend};
use wait_buffers::WaitBuffer;

/// From processor 101 to module 011, in binary: the shuffle makes it 011, and it leaves by port 0, on wire 010.
#[test]
fn wires_of_a_path(rt: HostRuntime) {
    for (found, wanted) in [
        (rotate_left(3, 5), 3),
        (rotate_right(3, 3), 5),
        (switch_of(3, 5), 1),
        (input_port(3, 5), 1),
        (wire_after(3, 0, 5, 3), 2),
        (wire_before(3, 0, 2, 5), 5),
        (path(3, 5, 3, 1), 2),
        (path(3, 5, 3, 3), 3),
        (module_of(11, 2), 3),
        (bit(2, 0b100), 1),
    ] {
        assert_same!(rt; found, wanted);
    }
}

#[test]
fn wires_are_in_a_set(rt: HostRuntime) {
    let mut set = WireSet::new();
    set.insert(17);
    assert!(rt; set.contains(17));
    assert_same!(rt; set.first_from(0), Some(17));
    set.remove(17);
    assert_same!(rt; set.first_from(0), None);
}

/// A request as it comes from a processor: it adds to word 0.
fn request(leader: u8, addend: u32) -> Request
    ensures { result.leader ≡ leader }
{
    Request {
        leader,
        word: 0,
        phi: Phi::Add(addend),
        marks: 0,
    }
}

/// Two such requests after they combined. The first is that of processor 3.
const JOINT: Request = Request {
    leader: 3,
    word: 0,
    phi: Phi::Add(3),
    marks: 1,
};

#[test]
fn records_wait(rt: HostRuntime) {
    let mut buffer = WaitBuffer::new(1);
    assert!(rt; buffer.has_room());
    buffer.push(Record {
        leader: 3,
        phi: Phi::Add(1),
        second: 2,
    });
    assert!(rt; !buffer.has_room());
    assert_same!(rt; buffer.records().len(), 1);
    buffer.forget(3);
    assert!(rt; buffer.records().is_empty());
}

/// Two requests come to output 1, and go on as one.
fn combines(rt: &impl Abort, pool: &mut Pool, switch: &mut Switch)
    requires pool { pool.old ≡ empty_pool 8 2 2 }
    requires switch { switch.old ≡ new_switch 2 1 1 0 0 1 0 1 }
{
    assert!(rt; pool.is_free(3));
    assert_same!(rt; switch.accept(pool, 1, request(3, 1)), Accepted::Queued);
    assert!(rt; pool.is_free(2));
    assert_same!(rt; switch.accept(pool, 1, request(2, 2)), Accepted::Combined { first: 3 });
    assert_same!(rt; [switch.front(pool, 0), switch.front(pool, 1)], [None, Some(JOINT)]);
    assert_same!(rt; [switch.take(pool, 1), switch.front(pool, 1)], [Some(JOINT), None]);
}

#[test]
fn a_switch_combines(rt: HostRuntime) -> Result<(), Fail> {
    let mut pool = Pool::new(rt.alloc(), 8, 2, 2)?;
    let mut switch = Switch::new(2, 1, 1, 0, (0, 1), (0, 1));
    combines(&rt, &mut pool, &mut switch);
    Ok(())
}

/// Without wait buffers no requests combine, and a queue of two takes no third one.
fn is_filled(rt: &impl Abort, pool: &mut Pool, switch: &mut Switch)
    requires pool { pool.old ≡ empty_pool 8 2 2 }
    requires switch { switch.old ≡ new_switch 2 0 1 0 0 1 0 1 }
{
    assert!(rt; pool.is_free(3));
    assert_same!(rt; switch.accept(pool, 1, request(3, 1)), Accepted::Queued);
    assert!(rt; pool.is_free(2));
    assert_same!(rt; switch.accept(pool, 1, request(2, 2)), Accepted::Queued);
    assert!(rt; pool.is_free(1));
    assert_same!(rt; switch.accept(pool, 1, request(1, 3)), Accepted::Full);
}

#[test]
fn a_switch_is_full(rt: HostRuntime) -> Result<(), Fail> {
    let mut pool = Pool::new(rt.alloc(), 8, 2, 2)?;
    let mut switch = Switch::new(2, 0, 1, 0, (0, 1), (0, 1));
    is_filled(&rt, &mut pool, &mut switch);
    Ok(())
}

/// A reply to the request of processor 3.
const REPLY: Reply = Reply {
    leader: 3,
    value: 9,
};

/// The reply to a request that did not combine.
#[test]
fn a_switch_answers(rt: HostRuntime) -> Result<(), Fail> {
    let mut pool = Pool::new(rt.alloc(), 8, 2, 2)?;
    let mut switch = Switch::new(2, 1, 1, 0, (0, 1), (0, 1));
    assert!(rt; pool.is_free(3));
    pool.push_reply(1, REPLY);
    assert_same!(rt; [switch.reply_front(&pool, 0), switch.reply_front(&pool, 1)], [None, Some(REPLY)]);
    assert_same!(rt; switch.reply_take(&mut pool, 1), Some(REPLY));
    assert!(rt; switch.records(1).is_empty());
    assert!(rt; pool.is_free(3));
    assert_same!(rt; switch.answer(&mut pool, 1, REPLY), Answered::One);
    Ok(())
}

/// Puts a request of a processor into its slot, and returns whether it fits.
fn puts(network: &mut Network, p: u8, addend: u32) -> bool {
    let fits = p < network.wires() && network.slot_is_free(p) && !network.names(p);
    if fits {
        network.inject(p, request(p, addend));
    }
    fits
}

/// Moves a request, or stalls if there is no such place.
fn up(network: &mut Network, stage: u8, wire: u8) -> UpMove {
    if stage < network.stages() && wire < network.wires() {
        network.up(stage, wire)
    } else {
        UpMove::Stalled
    }
}

/// Moves a reply, or stalls if there is no such place.
fn down(network: &mut Network, stage: u8, wire: u8) -> DownMove {
    if stage < network.stages() && wire < network.wires() {
        network.down(stage, wire)
    } else {
        DownMove::Stalled
    }
}

/// Takes the request at module 0, replies with this value, and returns the request's function.
fn serve(network: &mut Network, value: u32) -> Option<Phi> {
    let shown = network.module_front(0)?;
    network.module_take(0);
    let leader = shown.leader;
    if !network.module_is_free(0) || leader >= network.wires() || !network.may_reply(leader) {
        return None;
    }
    network.module_reply(0, Reply { leader, value });
    Some(shown.phi)
}

/// The value that a processor takes, if it is the one that it was shown.
fn take(network: &mut Network, p: u8) -> Option<u32> {
    if p >= network.wires() {
        return None;
    }
    let shown = network.port_reply(p)?;
    match network.port_take(p) {
        Some(reply) if reply == shown => Some(reply.value),
        _ => None,
    }
}

/// The moves of two requests that combine.
const UP_MOVES: [UpMove; 2] = [
    UpMove::Moved,
    UpMove::Combined {
        first: 0,
        second: 1,
    },
];

/// The move of their reply.
const ANSWERED: DownMove = DownMove::Answered {
    to: Seconds::One(1),
};

/// Two processors add 1 and 2 to a word that is 10. Their requests combine at the only stage, where the reply is split.
#[test]
fn a_network_combines(rt: HostRuntime) -> Result<(), Fail> {
    lend(Network::new(rt.alloc(), 1, 2, 1, 1)?, |network| {
        assert!(rt; network.is_empty());
        assert_same!(rt; [puts(network, 0, 1), puts(network, 1, 2)], [true; 2]);
        assert!(rt; !network.is_empty());
        assert_same!(rt; [up(network, 0, 0), up(network, 0, 1)], UP_MOVES);
        assert_same!(rt; serve(network, 10), Some(Phi::Add(3)));
        assert_same!(rt; down(network, 0, 0), ANSWERED);
        assert_same!(rt; [take(network, 0), take(network, 1)], [Some(10), Some(11)]);
        assert!(rt; network.is_empty());
    });
    Ok(())
}
