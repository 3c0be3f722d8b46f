//! The sets of a network's wires that hold messages, for a few messages.

use super::{down_of, phi_of, request, up_of};
use messages::Reply;
use omega_network::IndexedNetwork;
use omega_wires::WireSet;
use phi_algebra::Phi;
use std::test::Fail;
use test_support::{Words, asked_and_wanted, assert_same, low, read_words};

/// The first eight wires as bits, with wire 0 as the lowest.
fn bits(set: WireSet) -> u8 {
    let mut bits = 0;
    for wire in 0..8u8 {
        if set.contains(wire) {
            bits |= 1 << wire;
        }
    }
    bits
}

/// Four processors add to one word. Their requests combine at both stages, and the reply is split at both. Each row has
/// a step of a network of two stages, written as in the tests of runs, and then the wires that hold requests at depths
/// 0, 1 and 2, and those that hold replies. Module 0 serves the request of processor 0, and replies with a value.
static FOUR_ADDS: [(&str, [u8; 3], [u8; 3]); 18] = [
    ("add 0 0 1: put", [0b0001, 0, 0], [0; 3]),
    ("add 1 0 1: put", [0b0011, 0, 0], [0; 3]),
    ("add 2 0 1: put", [0b0111, 0, 0], [0; 3]),
    ("add 3 0 1: put", [0b1111, 0, 0], [0; 3]),
    ("up 0 0: moved", [0b1110, 0b0001, 0], [0; 3]),
    ("up 0 2: combined 0 2", [0b1010, 0b0001, 0], [0; 3]),
    ("up 0 2: stalled", [0b1010, 0b0001, 0], [0; 3]),
    ("up 0 1: moved", [0b1000, 0b0101, 0], [0; 3]),
    ("up 0 3: combined 1 3", [0, 0b0101, 0], [0; 3]),
    ("up 1 0: moved", [0, 0b0100, 0b0001], [0; 3]),
    ("up 1 2: combined 0 1", [0, 0, 0b0001], [0; 3]),
    ("serve 0: add 0 4", [0; 3], [0; 3]),
    ("reply: is 10", [0; 3], [0, 0, 0b0001]),
    ("down 1 0: answered 1", [0; 3], [0, 0b0101, 0]),
    ("down 1 0: stalled", [0; 3], [0, 0b0101, 0]),
    ("down 0 0: answered 2", [0; 3], [0b0101, 0b0100, 0]),
    ("down 0 2: answered 3", [0; 3], [0b1111, 0, 0]),
    ("take 2: is 11", [0; 3], [0b1011, 0, 0]),
];

/// Takes a call, and returns whether the network gave the wanted result.
fn answers(network: &mut IndexedNetwork, asked: Words, wanted: Words) -> bool {
    if network.stages() != 2 {
        return false;
    }
    let [a, b, operand, _] = asked.numbers;
    let (place, wire) = (low(a), low(b));
    match asked.verb {
        "add" => {
            let fits = place < 4
                && network.slot_is_free(place)
                && !network.as_network().names(place);
            if fits {
                network.inject(place, request(place, b, Phi::Add(operand)));
            }
            fits && !network.slot_is_free(place)
        }
        "up" => place < 2 && wire < 4 && Some(network.up(place, wire)) == up_of(wanted),
        "serve" => serves(network, wanted),
        "reply" => {
            let fits = network.module_is_free(0) && network.as_network().may_reply(0);
            if fits {
                let value = wanted.numbers[0];
                network.module_reply(0, Reply { leader: 0, value });
            }
            fits && !network.module_is_free(0)
        }
        "down" => place < 2 && wire < 4 && Some(network.down(place, wire)) == down_of(wanted),
        _ => {
            let value = wanted.numbers[0];
            let reply = Some(Reply {
                leader: place,
                value,
            });
            place < 4
                && network.port_reply(place) == reply
                && network.port_take(place) == reply
                && network.port_reply(place).is_none()
        }
    }
}

/// Returns whether module 0 has the wanted request, module 1 has none, and module 0 has none after it took that.
fn serves(network: &mut IndexedNetwork, wanted: Words) -> bool {
    if network.stages() != 2 || network.module_front(1).is_some() {
        return false;
    }
    let shown = network.module_front(0);
    let Some(request) = network.module_take(0) else {
        return false;
    };
    let [leader, operand, _, _] = wanted.numbers;
    let found = (request.leader, Some(request.phi));
    shown == Some(request)
        && found == (low(leader), phi_of(wanted.verb, operand))
        && network.module_front(0).is_none()
}

#[test]
fn wires_of_four_adds(rt: HostRuntime) -> Result<(), Fail> {
    let mut network = IndexedNetwork::new(rt.alloc(), 2, 4, 4, 1)?;
    for (line, requests, replies) in &FOUR_ADDS {
        let (asked, wanted) = asked_and_wanted(line);
        assert!(rt;
            answers(&mut network, read_words(asked)?, read_words(wanted)?),
            "{line}"
        );
        assert!(rt; network.stages() == 2);
        for depth in 0..3u8 {
            let at = usize::from(depth);
            let found = (
                bits(network.request_wires(depth)),
                bits(network.reply_wires(depth)),
            );
            assert_same!(rt; found, (requests[at], replies[at]), (&line, &depth));
        }
    }
    Ok(())
}
