//! Networks with an index of their messages.

ghost use Rattle.std.specs.Prelude.{◌≡◌, ◌<◌, ◌≤◌, ◌==◌, ◌&&◌, ◌↔◌, ◌^◌, suc, ℕ, [], length, slice_get};
ghost use Rattle.std.specs.Prelude.{slice_index_or, is_some, false, IfOk, IsTrue, if◌then◌else◌};
ghost use Rattle.omega_wires.specs.Members.{members};
ghost use Rattle.messages.specs.Network.{IsEmptyNet, Sizes};
ghost use Rattle.messages.specs.Naming.{Names, Unnamed};
ghost use Rattle.messages.specs.Moves.{injected, module_replied, module_taken, moved_down, moved_up, port_taken};
ghost use Rattle.omega_network.specs.Networks.{net_of, sizes_of};
ghost use Rattle.omega_network.specs.Index.{IsLookedAt};

use crate::network::Network;
use messages::{DownMove, Reply, Request, UpMove};
use omega_wires::{WireSet, rotate_right, switch_of};
use std::alloc::{AllocError, Global};
use std::marker::Model;

/// Depths 0 to 6: before each of six stages, and after the last.
const DEPTHS: usize = 7;

/// A network, and for each depth the wires that have messages. Wires are numbered from 0; at depth 0 they are the
/// processors', and at depth `k` the modules'.
#[derive(Drop)]
pub struct IndexedNetwork {
    network: Network,
    requests: [WireSet; DEPTHS],
    replies: [WireSet; DEPTHS],
}

impl Model for IndexedNetwork {
    ghost use Rattle.omega_network.specs.Networks.{NetworkLists};
    ghost use Rattle.omega_network.specs.Index.{IsIndexed};

    ghost Value = { NetworkLists };

    ghost view = { λ n. n.network };

    ghost invariant = { λ n. IsIndexed n.network n.requests n.replies };
}

impl IndexedNetwork {
    /// An empty network, like that of [`Network::new`].
    ///
    /// # Errors
    ///
    /// `AllocError` if there is no memory for it.
    pub fn new(alloc: Global, k: u8, c: u8, b: u8, r: u8) -> Result<Self, AllocError>
        requires stages { k ≤ 6 }
        requires queues { (2 ≤ c) × (c ≤ 16) }
        requires records { b ≤ 16 }
        requires combinations { (1 ≤ r) × (r ≤ 3) }
        ensures empty { IfOk result (λ n. IsEmptyNet (net_of n)) }
        ensures sizes { IfOk result (λ n. sizes_of n ≡ record { k = k; c = c; b = b; r = r }) }
    {
        omega_wires::laws::no_bits_no_wires();
        Ok(IndexedNetwork {
            network: Network::new(alloc, k, c, b, r)?,
            requests: [WireSet::new(); DEPTHS],
            replies: [WireSet::new(); DEPTHS],
        })
    }

    /// The network itself, to ask for the messages at each place and for whom they name.
    #[inline(always)]
    pub fn as_network(&self) -> &Network
        ensures { result.now ≡ self.now }
    {
        &self.network
    }

    /// The number of stages.
    pub fn stages(&self) -> u8
        ensures stages { result ≡ self.now.k }
        ensures few { result ≤ 6 }
    {
        self.network.stages()
    }

    /// Whether a processor's slot has no request.
    pub fn slot_is_free(&self, p: u8) -> bool
        requires { p < 2 ^ self.now.k }
        ensures { IsTrue result ↔ ((net_of self.now).requests 0 p ≡ []) }
    {
        !self.has_request(0, p)
    }

    /// Puts a processor's request into its slot, which must be free. No message or record may name the processor.
    pub fn inject(&mut self, p: u8, request: Request)
        requires processor { p < 2 ^ self.old.k }
        requires leader { request.leader ≡ p }
        requires free { (net_of self.old).requests 0 p ≡ [] }
        requires unnamed { Names (net_of self.old) p → ⊥ }
        ensures after { net_of self.new ≡ injected (net_of self.old) request }
        ensures sizes { sizes_of self.new ≡ sizes_of self.old }
    {
        self.network.inject(p, request);
        look_for_request(&self.network, &mut self.requests, 0, p);
    }

    /// Moves the first request on a wire before a stage, as [`Network::up`] does.
    #[inline(always)]
    pub fn up(&mut self, stage: u8, wire: u8) -> UpMove
        requires stage { stage < self.old.k }
        requires wire { wire < 2 ^ self.old.k }
        ensures outcome { result ≡ (moved_up (sizes_of self.old) (net_of self.old) stage wire).0 }
        ensures after { net_of self.new ≡ (moved_up (sizes_of self.old) (net_of self.old) stage wire).1 }
        ensures sizes { sizes_of self.new ≡ sizes_of self.old }
    {
        if self.has_request(stage, wire) {
            self.move_up(stage, wire)
        } else {
            messages::laws::moves_of_nothing_stall();
            UpMove::Stalled
        }
    }

    /// Moves the first request on a wire before a stage, and updates the index where it was and where it may be.
    #[inline(never)]
    fn move_up(&mut self, stage: u8, wire: u8) -> UpMove
        requires stage { stage < self.old.k }
        requires wire { wire < 2 ^ self.old.k }
        ensures outcome { result ≡ (moved_up (sizes_of self.old) (net_of self.old) stage wire).0 }
        ensures after { net_of self.new ≡ (moved_up (sizes_of self.old) (net_of self.old) stage wire).1 }
        ensures sizes { sizes_of self.new ≡ sizes_of self.old }
    {
        omega_wires::laws::rotations_are_inverse();
        let out = 2 * switch_of(self.stages(), wire);
        let moved = self.network.up(stage, wire);
        look_for_request(&self.network, &mut self.requests, stage, wire);
        look_for_request(&self.network, &mut self.requests, stage + 1, out);
        look_for_request(&self.network, &mut self.requests, stage + 1, out + 1);
        moved
    }

    /// Moves the first reply on a wire after a stage back over the stage, as [`Network::down`] does.
    #[inline(always)]
    pub fn down(&mut self, stage: u8, wire: u8) -> DownMove
        requires stage { stage < self.old.k }
        requires wire { wire < 2 ^ self.old.k }
        ensures outcome { result ≡ (moved_down (sizes_of self.old) (net_of self.old) stage wire).0 }
        ensures after { net_of self.new ≡ (moved_down (sizes_of self.old) (net_of self.old) stage wire).1 }
        ensures sizes { sizes_of self.new ≡ sizes_of self.old }
    {
        // For the proof: a network has at most six stages.
        let _ = &self.network;
        if self.has_reply(stage + 1, wire) {
            self.move_down(stage, wire)
        } else {
            messages::laws::moves_of_nothing_stall();
            DownMove::Stalled
        }
    }

    /// Moves the first reply on a wire after a stage back, and updates the index where it was and where it may be.
    #[inline(never)]
    fn move_down(&mut self, stage: u8, wire: u8) -> DownMove
        requires stage { stage < self.old.k }
        requires wire { wire < 2 ^ self.old.k }
        ensures outcome { result ≡ (moved_down (sizes_of self.old) (net_of self.old) stage wire).0 }
        ensures after { net_of self.new ≡ (moved_down (sizes_of self.old) (net_of self.old) stage wire).1 }
        ensures sizes { sizes_of self.new ≡ sizes_of self.old }
    {
        // For the proof: a network has at most six stages.
        let k = self.stages();
        let output = 2 * (wire / 2);
        let first = rotate_right(k, output);
        let second = rotate_right(k, output + 1);
        let moved = self.network.down(stage, wire);
        look_for_reply(&self.network, &mut self.replies, stage + 1, wire);
        look_for_reply(&self.network, &mut self.replies, stage, first);
        look_for_reply(&self.network, &mut self.replies, stage, second);
        moved
    }

    /// The first request at a module.
    pub fn module_front(&self, m: u8) -> Option<Request>
        requires { m < 2 ^ self.now.k }
        ensures { result ≡ slice_get ((net_of self.now).requests self.now.k m) 0 }
    {
        if self.has_request(self.stages(), m) {
            self.network.module_front(m)
        } else {
            None
        }
    }

    /// Takes the first request at a module.
    pub fn module_take(&mut self, m: u8) -> Option<Request>
        requires { m < 2 ^ self.old.k }
        ensures first { result ≡ slice_get ((net_of self.old).requests self.old.k m) 0 }
        ensures after { net_of self.new ≡ module_taken (sizes_of self.old) (net_of self.old) m }
        ensures sizes { sizes_of self.new ≡ sizes_of self.old }
    {
        let request = self.network.module_take(m);
        look_for_request(&self.network, &mut self.requests, self.network.stages(), m);
        request
    }

    /// Whether a module's slot has no reply.
    pub fn module_is_free(&self, m: u8) -> bool
        requires { m < 2 ^ self.now.k }
        ensures { IsTrue result ↔ ((net_of self.now).replies self.now.k m ≡ []) }
    {
        !self.has_reply(self.stages(), m)
    }

    /// Puts a reply into a module's slot, which must be free. The reply's leader may lead no message, and may be the
    /// second of no record.
    pub fn module_reply(&mut self, m: u8, reply: Reply)
        requires at_module { m < 2 ^ self.old.k }
        requires free { (net_of self.old).replies self.old.k m ≡ [] }
        requires leader { reply.leader < 2 ^ self.old.k }
        requires unnamed { Unnamed (net_of self.old) reply.leader }
        ensures after { net_of self.new ≡ module_replied (sizes_of self.old) (net_of self.old) m reply }
        ensures sizes { sizes_of self.new ≡ sizes_of self.old }
    {
        self.network.module_reply(m, reply);
        look_for_reply(&self.network, &mut self.replies, self.network.stages(), m);
    }

    /// The first reply on a processor's wire.
    pub fn port_reply(&self, p: u8) -> Option<Reply>
        requires { p < 2 ^ self.now.k }
        ensures { result ≡ slice_get ((net_of self.now).replies 0 p) 0 }
    {
        if self.has_reply(0, p) {
            self.network.port_reply(p)
        } else {
            None
        }
    }

    /// Takes the first reply on a processor's wire.
    pub fn port_take(&mut self, p: u8) -> Option<Reply>
        requires { p < 2 ^ self.old.k }
        ensures first { result ≡ slice_get ((net_of self.old).replies 0 p) 0 }
        ensures after { net_of self.new ≡ port_taken (net_of self.old) p }
        ensures sizes { sizes_of self.new ≡ sizes_of self.old }
    {
        let reply = self.network.port_take(p);
        look_for_reply(&self.network, &mut self.replies, 0, p);
        reply
    }

    /// Whether there is a request before a stage on a wire, or at a module if the stage is `k`.
    #[inline(always)]
    pub fn has_request(&self, stage: u8, wire: u8) -> bool
        requires stage { stage ≤ self.now.k }
        requires wire { wire < 2 ^ self.now.k }
        ensures { result ≡ is_some (slice_get ((net_of self.now).requests stage wire) 0) }
    {
        self.request_wires(stage).contains(wire)
    }

    /// Whether there is a reply before a stage on a wire, or at a module if the stage is `k`.
    #[inline(always)]
    pub fn has_reply(&self, stage: u8, wire: u8) -> bool
        requires stage { stage ≤ self.now.k }
        requires wire { wire < 2 ^ self.now.k }
        ensures { result ≡ is_some (slice_get ((net_of self.now).replies stage wire) 0) }
    {
        self.reply_wires(stage).contains(wire)
    }

    /// The wires with a request before a stage, or the modules with one if the stage is `k`.
    #[inline(always)]
    pub fn request_wires(&self, stage: u8) -> WireSet
        requires { stage ≤ self.now.k }
        ensures stages { self.now.k ≤ 6 }
        ensures exact { (w : ℕ) → w < 2 ^ self.now.k →
            members result w ≡ is_some (slice_get ((net_of self.now).requests stage w) 0) }
        ensures few { (w : ℕ) → 2 ^ self.now.k ≤ w → members result w ≡ false }
    {
        self.requests[usize::from(stage)]
    }

    /// The wires with a reply before a stage, or the modules with one if the stage is `k`.
    #[inline(always)]
    pub fn reply_wires(&self, stage: u8) -> WireSet
        requires { stage ≤ self.now.k }
        ensures stages { self.now.k ≤ 6 }
        ensures exact { (w : ℕ) → w < 2 ^ self.now.k →
            members result w ≡ is_some (slice_get ((net_of self.now).replies stage w) 0) }
        ensures few { (w : ℕ) → 2 ^ self.now.k ≤ w → members result w ≡ false }
    {
        self.replies[usize::from(stage)]
    }
}

/// Updates the index of requests for a wire at a depth.
fn look_for_request(network: &Network, sets: &mut [WireSet; DEPTHS], depth: u8, wire: u8)
    requires stages { network.now.k ≤ 6 }
    requires depth { depth ≤ network.now.k }
    requires wire { wire < 2 ^ network.now.k }
    ensures { IsLookedAt network.now.k (net_of network.now).requests depth wire sets.old sets.new }
{
    let is_there = network.has_request(depth, wire);
    set_wire(sets, depth, wire, is_there);
}

/// Updates the index of replies for a wire at a depth.
fn look_for_reply(network: &Network, sets: &mut [WireSet; DEPTHS], depth: u8, wire: u8)
    requires stages { network.now.k ≤ 6 }
    requires depth { depth ≤ network.now.k }
    requires wire { wire < 2 ^ network.now.k }
    ensures { IsLookedAt network.now.k (net_of network.now).replies depth wire sets.old sets.new }
{
    let is_there = network.has_reply(depth, wire);
    set_wire(sets, depth, wire, is_there);
}

/// Adds a wire to the set of a depth, or removes it.
fn set_wire(sets: &mut [WireSet; DEPTHS], depth: u8, wire: u8, is_there: bool)
    requires depth { depth < 7 }
    requires wire { wire < 64 }
    ensures { (d w : ℕ) →
        members (slice_index_or sets.new d 0) w
        ≡ (if d == depth && w == wire then is_there else members (slice_index_or sets.old d 0) w) }
{
    let set = &mut sets[usize::from(depth)];
    if is_there {
        set.insert(wire);
    } else {
        set.remove(wire);
    }
}
