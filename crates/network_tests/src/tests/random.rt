//! Long random runs of networks, compared with plain ones.

ghost use Rattle.std.specs.Prelude.{◌≡◌};

use super::plain::Plain;
use messages::{Reply, Request};
use omega_network::Network;
use phi_algebra::{Phi, SignedRange};
use std::test::Fail;
use test_support::assert_same;

/// Random numbers, by xorshift.
#[derive(Clone, Copy, Drop)]
pub struct Random {
    state: u32,
}

impl Random {
    /// The numbers that follow this state, which is not 0.
    pub fn new(state: u32) -> Self {
        Random { state }
    }

    /// The next number, below `end` if that is not 0.
    pub fn below(&mut self, end: u32) -> u32 {
        self.state ^= self.state << 13;
        self.state ^= self.state >> 17;
        self.state ^= self.state << 5;
        self.state % end.max(1)
    }
}

/// A request as it comes from a processor, with a function of one of four kinds.
pub fn request_of(leader: u8, word: u32, kind: u32, value: u32) -> Request
    ensures { result.leader ≡ leader }
{
    Request {
        leader,
        word,
        phi: phi_of(kind, value),
        marks: 0,
    }
}

/// The function of this kind, with this operand.
fn phi_of(kind: u32, value: u32) -> Phi {
    match kind {
        0 => Phi::Bits {
            and: u32::MAX,
            xor: 0,
        },
        1 => Phi::constant(value),
        2 => Phi::Clamp(SignedRange::new(i32::MIN, value.cast_signed())),
        _ => Phi::Add(value),
    }
}

/// The network and the plain one side by side, the words of their modules, and which processors wait for a reply.
#[derive(Drop)]
struct Pair {
    network: Network,
    plain: Plain,
    random: Random,
    words: [u32; 256],
    is_open: [bool; 64],
}

impl Pair {
    /// A random wire.
    fn wire(&mut self) -> u8 {
        let wires = u32::from(self.network.wires());
        (self.random.below(wires) & 63) as u8
    }

    /// A random processor puts a request into its slot, unless it waits for a reply. Most requests are for word 0.
    fn inject(&mut self) -> Option<bool> {
        let p = self.wire();
        let wires = self.network.wires();
        if self.is_open[usize::from(p & 63)] || p >= wires || !self.network.slot_is_free(p) {
            return Some(true);
        }
        let word = match self.random.below(4) {
            0 => self.random.below(4),
            1 => u32::from(wires),
            _ => 0,
        };
        let (kind, value) = (self.random.below(5), self.random.below(100));
        if self.network.names(p) {
            return Some(false);
        }
        self.network.inject(p, request_of(p, word, kind, value));
        self.plain.inject(p, word, phi_of(kind, value))?;
        self.is_open[usize::from(p & 63)] = true;
        Some(true)
    }

    /// Makes one random move, up or down, and returns whether both networks gave the same result.
    fn moved(&mut self) -> Option<bool> {
        let wire = self.wire();
        let stages = self.network.stages();
        let stage = (self.random.below(u32::from(stages)) & 7) as u8;
        if stage >= stages || wire >= self.network.wires() {
            return Some(true);
        }
        if self.random.below(2) == 0 {
            let outcome = self.network.up(stage, wire);
            Some(self.plain.up(usize::from(stage), usize::from(wire))? == outcome)
        } else {
            let outcome = self.network.down(stage, wire);
            Some(self.plain.down(usize::from(stage), usize::from(wire))? == outcome)
        }
    }

    /// A random module serves a request if it has one and its slot is free.
    fn serve(&mut self) -> Option<bool> {
        let m = self.wire();
        if m >= self.network.wires() || !self.network.module_is_free(m) {
            return Some(true);
        }
        let request = self.network.module_take(m);
        let same = request == self.plain.module_take(usize::from(m));
        let Some(request) = request else {
            return Some(same);
        };
        let word = &mut self.words[(request.word & 255) as usize];
        let reply = Reply {
            leader: request.leader,
            value: *word,
        };
        *word = request.phi.apply(*word);
        if !self.network.module_is_free(m)
            || reply.leader >= self.network.wires()
            || !self.network.may_reply(reply.leader)
        {
            return Some(false);
        }
        self.network.module_reply(m, reply);
        self.plain.module_reply(usize::from(m), reply)?;
        Some(same)
    }

    /// A random processor takes the reply on its wire if there is one.
    fn take(&mut self) -> Option<bool> {
        let p = self.wire();
        if p >= self.network.wires() {
            return Some(true);
        }
        let shown = self.network.port_reply(p);
        let reply = self.network.port_take(p);
        if let Some(reply) = reply {
            self.is_open[usize::from(reply.leader & 63)] = false;
            if reply.leader != p {
                return Some(false);
            }
        }
        Some(shown == reply && reply == self.plain.port_take(usize::from(p)))
    }

    /// Takes a few random steps, and returns whether both networks gave the same results.
    fn step(&mut self, injects: bool) -> Option<bool> {
        let injected = !injects || self.inject()?;
        Some(injected && self.moved()? && self.serve()? && self.take()?)
    }

    /// Returns whether both have messages at the same places and show the same ones, and whether the network is empty
    /// exactly if no processor waits.
    fn is_same(&mut self) -> Option<bool> {
        let none_open = self.is_open.iter().all(|is_open| !is_open);
        let same_places = has_same_places(&self.network, &mut self.plain)?;
        let same_messages = shows_same_messages(&self.network, &mut self.plain)?;
        Some(same_places && same_messages && self.network.is_empty() == none_open)
    }
}

/// Returns whether both have requests and replies on the same wires, before each stage and at the modules.
fn has_same_places(network: &Network, plain: &mut Plain) -> Option<bool> {
    let wires = network.wires();
    for stage in 0..=network.stages() {
        for wire in 0..wires {
            let (depth, place) = (usize::from(stage), usize::from(wire));
            if network.has_request(stage, wire) != plain.has_request(depth, place)?
                || network.has_reply(stage, wire) != plain.has_reply(depth, place)?
            {
                return Some(false);
            }
        }
    }
    Some(true)
}

/// Returns whether both show the same request to each module, and the same reply to each processor.
fn shows_same_messages(network: &Network, plain: &mut Plain) -> Option<bool> {
    // The proof needs the type of a request's function named.
    let _phi = Phi::identity();
    for wire in 0..network.wires() {
        let place = usize::from(wire);
        if network.module_front(wire) != plain.module_front(place)?
            || network.port_reply(wire) != plain.port_reply(place)?
        {
            return Some(false);
        }
    }
    Some(true)
}

#[test]
fn moves_as_a_plain_network_does(rt: HostRuntime) -> Result<(), Fail> {
    let mut random = Random::new(0x9E37_79B9);
    for k in 0..7_u8 {
        for (c, b, r) in [
            (2_u8, 0_u8, 1_u8),
            (2, 1, 1),
            (3, 2, 2),
            (4, 4, 3),
            (16, 16, 1),
            (16, 16, 3),
        ] {
            assert!(rt; k <= 6 && c >= 2 && c <= 16 && b <= 16 && r >= 1 && r <= 3);
            let mut pair = Pair {
                network: Network::new(rt.alloc(), k, c, b, r)?,
                plain: Plain::new(rt.alloc(), k, c, b, r)?,
                random,
                words: [0; 256],
                is_open: [false; 64],
            };
            for i in 0..8_000 {
                assert_same!(rt; pair.step(true), Some(true), (&i, &k, &c, &b, &r));
                if i % 16 == 0 {
                    assert_same!(rt; pair.is_same(), Some(true), (&i, &k, &c, &b, &r));
                }
            }
            for _ in 0..1000 {
                for _ in 0..100 {
                    assert_same!(rt; pair.step(false), Some(true), (&k, &c, &b, &r));
                }
                assert_same!(rt; pair.is_same(), Some(true), (&k, &c, &b, &r));
                if pair.network.is_empty() {
                    break;
                }
            }
            assert!(rt; pair.network.is_empty(), "with k {k}, c {c}, b {b}, r {r}");
            random = pair.random;
        }
    }
    Ok(())
}
