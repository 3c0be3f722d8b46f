//! Long random runs of the network with rings and of the network with a pool, side by side. Their steps are picked by
//! the rule of the program's arbiter.

use super::random::{Random, request_of};
use messages::Reply;
use omega_network::Network;
use ring_network::Network as RingNetwork;
use std::test::Fail;

/// The two networks, the words of their modules, and which processors wait for a reply.
#[derive(Drop)]
struct Both {
    rings: RingNetwork,
    pool: Network,
    random: Random,
    /// The numbers that pick the steps of the networks.
    choices: Random,
    words: [u32; 256],
    is_open: [bool; 64],
}

impl Both {
    /// A random wire.
    fn wire(&mut self) -> u8 {
        let wires = u32::from(self.rings.wires());
        (self.random.below(wires) & 63) as u8
    }

    /// A random processor puts a request into its slot, unless it waits for a reply. Most requests are for word 0.
    fn inject(&mut self) -> bool {
        let p = self.wire();
        if self.is_open[usize::from(p & 63)] {
            return true;
        }
        let word = match self.random.below(4) {
            0 => self.random.below(4),
            1 => u32::from(self.rings.wires()),
            _ => 0,
        };
        let (kind, value) = (self.random.below(5), self.random.below(100));
        self.is_open[usize::from(p & 63)] = true;
        self.inject_into_both(p, word, kind, value)
    }

    /// Puts a request into its leader's slot. No message may name the leader, because it waits for no reply.
    fn inject_into_both(&mut self, p: u8, word: u32, kind: u32, value: u32) -> bool {
        if p >= self.rings.wires()
            || p >= self.pool.wires()
            || !self.rings.slot_is_free(p)
            || !self.pool.slot_is_free(p)
            || self.pool.names(p)
        {
            return false;
        }
        self.rings.inject(p, request_of(p, word, kind, value));
        self.pool.inject(p, request_of(p, word, kind, value));
        true
    }

    /// Takes one step of a list: all moves up, by stage and wire, then all services, and then all moves down. The next
    /// number, modulo the length of the list, is the place of the step. This is the rule of the program's arbiter
    /// (`schedules`, `Shuffled`), whose numbers are those of [`Random`].
    fn asked(&mut self) -> bool {
        let stages = self.rings.stages();
        let wires = u32::from(self.rings.wires());
        let rows = u32::from(stages).wrapping_mul(2).wrapping_add(1);
        let place = self.choices.below(rows.wrapping_mul(wires));
        let row = ((place / wires.max(1)) & 15) as u8;
        let wire = ((place % wires.max(1)) & 63) as u8;
        if row < stages {
            self.moved(row, wire, true)
        } else if row == stages {
            self.serve(wire)
        } else {
            self.moved(row.wrapping_sub(stages).wrapping_sub(1), wire, false)
        }
    }

    /// Makes one move, up or down, and returns whether both networks gave the same result.
    fn moved(&mut self, stage: u8, wire: u8, is_up: bool) -> bool {
        if stage >= self.rings.stages()
            || stage >= self.pool.stages()
            || wire >= self.rings.wires()
            || wire >= self.pool.wires()
        {
            return false;
        }
        if is_up {
            self.rings.up(stage, wire) == self.pool.up(stage, wire)
        } else {
            self.rings.down(stage, wire) == self.pool.down(stage, wire)
        }
    }

    /// A module serves a request if it has one and its slot is free.
    fn serve(&mut self, m: u8) -> bool {
        if m >= self.rings.wires() || m >= self.pool.wires() {
            return false;
        }
        if !self.rings.module_is_free(m) || !self.pool.module_is_free(m) {
            return self.rings.module_is_free(m) == self.pool.module_is_free(m);
        }
        let shown = self.pool.module_front(m);
        let taken = self.rings.module_take(m);
        if self.pool.module_take(m) != taken || shown != taken {
            return false;
        }
        let Some(request) = taken else {
            return true;
        };
        let word = &mut self.words[(request.word & 255) as usize];
        let reply = Reply {
            leader: request.leader,
            value: *word,
        };
        *word = request.phi.apply(*word);
        self.reply_to_both(m, reply)
    }

    /// Puts a reply into a module's slot.
    fn reply_to_both(&mut self, m: u8, reply: Reply) -> bool {
        if m >= self.rings.wires()
            || m >= self.pool.wires()
            || !self.rings.module_is_free(m)
            || !self.pool.module_is_free(m)
            || reply.leader >= self.pool.wires()
            || !self.pool.may_reply(reply.leader)
        {
            return false;
        }
        self.rings.module_reply(m, reply);
        self.pool.module_reply(m, reply);
        true
    }

    /// A random processor takes the reply on its wire if there is one.
    fn take(&mut self) -> bool {
        let p = self.wire();
        if p >= self.rings.wires() || p >= self.pool.wires() {
            return false;
        }
        let shown = self.pool.port_reply(p);
        let taken = self.rings.port_take(p);
        if let Some(reply) = taken {
            self.is_open[usize::from(reply.leader & 63)] = false;
        }
        self.pool.port_take(p) == taken && shown == taken
    }

    /// Takes a few steps, and returns whether both networks gave the same results.
    fn step(&mut self, injects: bool) -> bool {
        (!injects || self.inject()) && self.asked() && self.take()
    }

    /// Returns whether both networks have messages on the same wires, before each stage and at the modules, and whether
    /// exactly the processors that wait are named.
    fn is_same(&self) -> bool {
        for stage in 0..=self.rings.stages() {
            for wire in 0..self.rings.wires() {
                if stage > self.pool.stages()
                    || wire >= self.pool.wires()
                    || self.rings.has_request(stage, wire) != self.pool.has_request(stage, wire)
                    || self.rings.has_reply(stage, wire) != self.pool.has_reply(stage, wire)
                {
                    return false;
                }
            }
        }
        for p in 0..self.rings.wires() {
            let is_open = self.is_open[usize::from(p & 63)];
            if self.pool.names(p) != is_open || self.pool.may_reply(p) == is_open {
                return false;
            }
        }
        self.rings.is_empty() == self.pool.is_empty()
    }
}

/// The sizes of queues and of wait buffers, and how often an entry is combined, by the number of stages.
static SIZES: [(u8, u8, u8); 7] = [
    (2, 1, 1),
    (2, 1, 1),
    (2, 0, 1),
    (4, 4, 3),
    (3, 2, 2),
    (16, 16, 3),
    (4, 4, 1),
];

#[test]
fn rings_and_a_pool_move_alike(rt: HostRuntime) -> Result<(), Fail> {
    let mut random = Random::new(0x9E37_79B9);
    for k in 0..7_u8 {
        let (c, b, r) = SIZES[usize::from(k)];
        assert!(rt; k <= 6 && c >= 2 && c <= 16 && b <= 16 && r >= 1 && r <= 3);
        let mut both = Both {
            rings: RingNetwork::new(rt.alloc(), k, c, b, r)?,
            pool: Network::new(rt.alloc(), k, c, b, r)?,
            random,
            choices: Random::new(1),
            words: [0; 256],
            is_open: [false; 64],
        };
        assert!(rt; both.pool.is_empty());
        for i in 0..20_000 {
            assert!(rt; both.step(true), "step {i} with k {k}");
            if i % 500 == 0 {
                assert!(rt; both.is_same(), "after {i} with k {k}");
            }
        }
        for i in 0..100_000 {
            assert!(rt; both.step(false), "the end with k {k}");
            if i % 500 == 0 {
                assert!(rt; both.is_same(), "the end with k {k}");
                if both.pool.is_empty() {
                    break;
                }
            }
        }
        assert!(rt; both.pool.is_empty(), "with k {k}");
        random = both.random;
    }
    Ok(())
}
