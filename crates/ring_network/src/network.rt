//! Networks.

ghost use Rattle.std.specs.Prelude.{◌≡◌, ◌↔◌, ◌<◌, ◌≤◌, ◌^◌, ◌/◌, ◌%◌, ◌*◌, ◌+◌, suc, [], drop, length, slice_get};
ghost use Rattle.std.specs.Prelude.{is_some, Some, All, IfOk, IsNone, IsTrue};
ghost use Rattle.std.specs.Option.{option_to_list};
ghost use Rattle.omega_wires.specs.Wires.{switch_of};
ghost use Rattle.messages.specs.Network.{IsEmptyNet, Sizes, put_replies, put_requests};
ghost use Rattle.messages.specs.Moves.{injected, module_replied, module_taken, moved_down, moved_up, port_taken};
ghost use Rattle.ring_network.specs.Switches.{IsEmptySwitch};
ghost use Rattle.omega_network.specs.Networks.{half};
ghost use Rattle.ring_network.specs.Networks.{net_of, sizes_of};
ghost use Rattle.ring_network.specs.Changes.{AreNew};
ghost use Rattle.ring_network.specs.Offers.{accepted_on, answered_on, first_reply_taken, first_request_taken};

use crate::switch::Switch;
use combining_switch::{Accepted, Answered};
use messages::{DownMove, Record, Reply, Request, UpMove};
use omega_wires::{input_port, module_of, rotate_left, wire_after};
use phi_algebra::Phi;
use std::alloc::{AllocError, Global};
use std::marker::Model;

/// A network of `k` stages, with queues of up to `c` messages and wait buffers of up to `b` records. An entry of a
/// queue is combined up to `r` times. Processors, modules, wires and stages are numbered from 0.
#[derive(Drop)]
pub struct Network {
    slots: Vec<Option<Request>>,
    switches: Vec<Switch>,
    module_slots: Vec<Option<Reply>>,
    k: u8,
    c: u8,
    b: u8,
    r: u8,
}

impl Model for Network {
    ghost use Rattle.ring_network.specs.Networks.{IsNetwork, NetworkLists};

    ghost Value = { NetworkLists };

    ghost view = { λ n. record {
      k = n.k;
      c = n.c;
      b = n.b;
      r = n.r;
      slots = n.slots.items;
      switches = n.switches.items;
      module_slots = n.module_slots.items;
    } };

    ghost invariant = { λ n. IsNetwork (record {
      k = n.k;
      c = n.c;
      b = n.b;
      r = n.r;
      slots = n.slots.items;
      switches = n.switches.items;
      module_slots = n.module_slots.items;
    }) };
}

impl Network {
    /// An empty network of `k` stages, 0 to 6, with queues of `c` messages, 2 to 16, and wait buffers of `b` records, 0
    /// to 16. An entry of a queue is combined up to `r` times, 1 to 3. Without a stage, the processor's slot is the
    /// module's.
    ///
    /// # Errors
    ///
    /// `AllocError` if there is no memory for it.
    pub fn new(alloc: Global, k: u8, c: u8, b: u8, r: u8) -> Result<Self, AllocError>
        requires stages { k ≤ 6 }
        requires queues { (2 ≤ c) × (c ≤ 16) }
        requires records { b ≤ 16 }
        requires combinations { (1 ≤ r) × (r ≤ 3) }
        ensures empty { IfOk result (λ n. IsEmptyNet (net_of n)) }
        ensures sizes { IfOk result (λ n. sizes_of n ≡ record { k = k; c = c; b = b; r = r }) }
    {
        // The proof needs the type of a request's function to be named.
        let _phi = Phi::identity();
        let wires = wires_of(k);
        Ok(Network {
            slots: free_slots(alloc, wires)?,
            switches: new_switches(alloc, k, c, b, r)?,
            module_slots: free_slots(alloc, wires)?,
            k,
            c,
            b,
            r,
        })
    }

    /// The number of stages.
    pub fn stages(&self) -> u8
        ensures { result ≡ self.now.k }
    {
        self.k
    }

    /// The number of processors, of modules, and of wires before and after each stage.
    pub fn wires(&self) -> u8
        ensures { result ≡ 2 ^ self.now.k }
    {
        1 << self.k
    }

    /// Whether the network has no request, no record and no reply.
    pub fn is_empty(&self) -> bool
        ensures { IsTrue result ↔ IsEmptyNet (net_of self.now) }
    {
        omega_wires::laws::rotations_are_inverse();
        are_free(&self.slots) && are_empty(&self.switches) && are_free(&self.module_slots)
    }

    /// Whether a processor's slot has no request.
    pub fn slot_is_free(&self, p: u8) -> bool
        requires { p < 2 ^ self.now.k }
        ensures { IsTrue result ↔ ((net_of self.now).requests 0 p ≡ []) }
    {
        self.request_before(0, p).is_none()
    }

    /// Puts a processor's request into its slot, which must be free.
    #[tactic(auto, unfolding(messages::specs::Moves::injected))]
    pub fn inject(&mut self, p: u8, request: Request)
        requires processor { p < 2 ^ self.old.k }
        requires leader { request.leader ≡ p }
        requires free { (net_of self.old).requests 0 p ≡ [] }
        ensures after { net_of self.new ≡ injected (net_of self.old) request }
        ensures sizes { sizes_of self.new ≡ sizes_of self.old }
    {
        self.put_slot(p, Some(request));
    }

    /// Moves the first request on a wire before a stage: it is offered to the output that leads to the module of its
    /// word.
    #[inline(always)]
    pub fn up(&mut self, stage: u8, wire: u8) -> UpMove
        requires stage { stage < self.old.k }
        requires wire { wire < 2 ^ self.old.k }
        ensures outcome { result ≡ (moved_up (sizes_of self.old) (net_of self.old) stage wire).0 }
        ensures after { net_of self.new ≡ (moved_up (sizes_of self.old) (net_of self.old) stage wire).1 }
        ensures sizes { sizes_of self.new ≡ sizes_of self.old }
    {
        let Some(request) = self.request_before(stage, wire) else {
            messages::laws::moves_of_nothing_stall();
            return UpMove::Stalled;
        };
        self.move_up(stage, wire, request)
    }

    /// Moves this request, the first on a wire before a stage.
    #[inline(always)]
    fn move_up(&mut self, stage: u8, wire: u8, request: Request) -> UpMove
        requires stage { stage < self.old.k }
        requires wire { wire < 2 ^ self.old.k }
        requires first { slice_get ((net_of self.old).requests stage wire) 0 ≡ Some request }
        ensures outcome { result ≡ (moved_up (sizes_of self.old) (net_of self.old) stage wire).0 }
        ensures after { net_of self.new ≡ (moved_up (sizes_of self.old) (net_of self.old) stage wire).1 }
        ensures sizes { sizes_of self.new ≡ sizes_of self.old }
    {
        let (word, second) = (request.word, request.leader);
        let out = wire_after(self.k, stage, wire, module_of(word, self.k));
        match self.accept(stage, out, request) {
            Accepted::Queued => {
                self.take_request(stage, wire);
                UpMove::Moved
            }
            Accepted::Combined { first } => {
                self.take_request(stage, wire);
                UpMove::Combined { first, second }
            }
            Accepted::Full => UpMove::Stalled,
        }
    }

    /// Moves the first reply on a wire after a stage back over the stage: it is answered at the output that the wire
    /// comes from.
    #[inline(always)]
    pub fn down(&mut self, stage: u8, wire: u8) -> DownMove
        requires stage { stage < self.old.k }
        requires wire { wire < 2 ^ self.old.k }
        ensures outcome { result ≡ (moved_down (sizes_of self.old) (net_of self.old) stage wire).0 }
        ensures after { net_of self.new ≡ (moved_down (sizes_of self.old) (net_of self.old) stage wire).1 }
        ensures sizes { sizes_of self.new ≡ sizes_of self.old }
    {
        // For the proof: a network has at most six stages.
        let _ = &self.k;
        let Some(reply) = self.reply_before(stage + 1, wire) else {
            messages::laws::moves_of_nothing_stall();
            return DownMove::Stalled;
        };
        self.move_down(stage, wire, reply)
    }

    /// Moves this reply, the first on a wire after a stage, back over the stage.
    #[inline(always)]
    fn move_down(&mut self, stage: u8, wire: u8, reply: Reply) -> DownMove
        requires stage { stage < self.old.k }
        requires wire { wire < 2 ^ self.old.k }
        requires first { slice_get ((net_of self.old).replies (suc stage) wire) 0 ≡ Some reply }
        ensures outcome { result ≡ (moved_down (sizes_of self.old) (net_of self.old) stage wire).0 }
        ensures after { net_of self.new ≡ (moved_down (sizes_of self.old) (net_of self.old) stage wire).1 }
        ensures sizes { sizes_of self.new ≡ sizes_of self.old }
    {
        // For the proof: a network has at most six stages.
        let _ = &self.k;
        match self.answer(stage, wire, reply) {
            Answered::One => {
                self.take_reply(stage + 1, wire);
                DownMove::Moved
            }
            Answered::Many { seconds } => {
                self.take_reply(stage + 1, wire);
                DownMove::Answered { to: seconds }
            }
            Answered::NoRoom => DownMove::Stalled,
        }
    }

    /// The first request at a module.
    pub fn module_front(&self, m: u8) -> Option<Request>
        requires { m < 2 ^ self.now.k }
        ensures { result ≡ slice_get ((net_of self.now).requests self.now.k m) 0 }
    {
        self.request_before(self.k, m)
    }

    /// Takes the first request at a module.
    #[tactic(auto, unfolding(messages::specs::Moves::module_taken))]
    pub fn module_take(&mut self, m: u8) -> Option<Request>
        requires { m < 2 ^ self.old.k }
        ensures first { result ≡ slice_get ((net_of self.old).requests self.old.k m) 0 }
        ensures after { net_of self.new ≡ module_taken (sizes_of self.old) (net_of self.old) m }
        ensures sizes { sizes_of self.new ≡ sizes_of self.old }
    {
        let request = self.module_front(m);
        self.take_request(self.k, m);
        request
    }

    /// Whether a module's slot has no reply.
    pub fn module_is_free(&self, m: u8) -> bool
        requires { m < 2 ^ self.now.k }
        ensures { IsTrue result ↔ ((net_of self.now).replies self.now.k m ≡ []) }
    {
        self.reply_before(self.k, m).is_none()
    }

    /// Puts a reply into a module's slot, which must be free.
    #[tactic(auto, unfolding(messages::specs::Moves::module_replied))]
    pub fn module_reply(&mut self, m: u8, reply: Reply)
        requires at_module { m < 2 ^ self.old.k }
        requires free { (net_of self.old).replies self.old.k m ≡ [] }
        ensures after { net_of self.new ≡ module_replied (sizes_of self.old) (net_of self.old) m reply }
        ensures sizes { sizes_of self.new ≡ sizes_of self.old }
    {
        self.put_module_slot(m, Some(reply));
    }

    /// The first reply on a processor's wire.
    pub fn port_reply(&self, p: u8) -> Option<Reply>
        requires { p < 2 ^ self.now.k }
        ensures { result ≡ slice_get ((net_of self.now).replies 0 p) 0 }
    {
        self.reply_before(0, p)
    }

    /// Takes the first reply on a processor's wire.
    #[tactic(auto, unfolding(messages::specs::Moves::port_taken))]
    pub fn port_take(&mut self, p: u8) -> Option<Reply>
        requires { p < 2 ^ self.old.k }
        ensures first { result ≡ slice_get ((net_of self.old).replies 0 p) 0 }
        ensures after { net_of self.new ≡ port_taken (net_of self.old) p }
        ensures sizes { sizes_of self.new ≡ sizes_of self.old }
    {
        let reply = self.port_reply(p);
        self.take_reply(0, p);
        reply
    }

    /// Whether there is a request before a stage on a wire, or at a module if the stage is `k`.
    pub fn has_request(&self, stage: u8, wire: u8) -> bool
        requires stage { stage ≤ self.now.k }
        requires wire { wire < 2 ^ self.now.k }
        ensures { result ≡ is_some (slice_get ((net_of self.now).requests stage wire) 0) }
    {
        self.request_before(stage, wire).is_some()
    }

    /// Whether there is a reply before a stage on a wire, or at a module if the stage is `k`.
    pub fn has_reply(&self, stage: u8, wire: u8) -> bool
        requires stage { stage ≤ self.now.k }
        requires wire { wire < 2 ^ self.now.k }
        ensures { result ≡ is_some (slice_get ((net_of self.now).replies stage wire) 0) }
    {
        self.reply_before(stage, wire).is_some()
    }

    /// The number of requests in the queue at the output of a wire after a stage.
    pub fn request_count(&self, stage: u8, wire: u8) -> usize
        requires stage { stage < self.now.k }
        requires wire { wire < 2 ^ self.now.k }
        ensures { result ≡ length ((net_of self.now).requests (suc stage) wire) }
    {
        omega_wires::laws::rotations_are_inverse();
        let switch = self.place_after(stage, wire);
        self.switches[switch].request_count(wire % 2)
    }

    /// The number of replies in the queue at the input of a wire before a stage.
    pub fn reply_count(&self, stage: u8, wire: u8) -> usize
        requires stage { stage < self.now.k }
        requires wire { wire < 2 ^ self.now.k }
        ensures { result ≡ length ((net_of self.now).replies stage wire) }
    {
        omega_wires::laws::rotations_are_inverse();
        let switch = self.place_before(stage, wire);
        self.switches[switch].reply_count(input_port(self.k, wire))
    }

    /// The records of the wait buffer at the output of a wire after a stage, in the order of their combinations.
    pub fn records(&self, stage: u8, wire: u8) -> &[Record]
        requires stage { stage < self.now.k }
        requires wire { wire < 2 ^ self.now.k }
        ensures { result.now ≡ (net_of self.now).records stage wire }
    {
        omega_wires::laws::rotations_are_inverse();
        let switch = self.place_after(stage, wire);
        self.switches[switch].records(wire % 2)
    }

    /// The first request before a stage on a wire, or at a module if the stage is `k`.
    fn request_before(&self, stage: u8, wire: u8) -> Option<Request>
        requires stage { stage ≤ self.now.k }
        requires wire { wire < 2 ^ self.now.k }
        ensures { result ≡ slice_get ((net_of self.now).requests stage wire) 0 }
    {
        if stage == 0 {
            self.slots[usize::from(wire)]
        } else {
            omega_wires::laws::rotations_are_inverse();
            let place = self.place_after(stage - 1, wire);
            self.switches[place].front(wire % 2)
        }
    }

    /// Takes the first request before a stage on a wire.
    fn take_request(&mut self, stage: u8, wire: u8)
        requires stage { stage ≤ self.old.k }
        requires wire { wire < 2 ^ self.old.k }
        ensures taken { net_of self.new ≡ first_request_taken (net_of self.old) stage wire }
        ensures sizes { sizes_of self.new ≡ sizes_of self.old }
    {
        if stage == 0 {
            self.put_slot(wire, None);
        } else {
            self.take_after(stage - 1, wire);
        }
    }

    /// Takes the first request at the output of a wire after a stage.
    fn take_after(&mut self, stage: u8, wire: u8)
        requires stage { stage < self.old.k }
        requires wire { wire < 2 ^ self.old.k }
        ensures taken { net_of self.new ≡ first_request_taken (net_of self.old) (suc stage) wire }
        ensures sizes { sizes_of self.new ≡ sizes_of self.old }
    {
        omega_wires::laws::rotations_are_inverse();
        let place = self.place_after(stage, wire);
        self.switches[place].take(wire % 2);
    }

    /// Offers a request to the output of a wire after a stage.
    fn accept(&mut self, stage: u8, wire: u8, request: Request) -> Accepted
        requires stage { stage < self.old.k }
        requires wire { wire < 2 ^ self.old.k }
        ensures answer { result ≡ (accepted_on (sizes_of self.old) (net_of self.old) stage wire request).0 }
        ensures after { net_of self.new ≡ (accepted_on (sizes_of self.old) (net_of self.old) stage wire request).1 }
        ensures sizes { sizes_of self.new ≡ sizes_of self.old }
    {
        // The proof needs this field's type to be named.
        let _phi = request.phi;
        omega_wires::laws::rotations_are_inverse();
        let place = self.place_after(stage, wire);
        self.switches[place].accept(wire % 2, request)
    }

    /// The first reply before a stage on a wire, or at a module if the stage is `k`.
    fn reply_before(&self, stage: u8, wire: u8) -> Option<Reply>
        requires stage { stage ≤ self.now.k }
        requires wire { wire < 2 ^ self.now.k }
        ensures { result ≡ slice_get ((net_of self.now).replies stage wire) 0 }
    {
        if stage == self.k {
            self.module_slots[usize::from(wire)]
        } else {
            omega_wires::laws::rotations_are_inverse();
            let place = self.place_before(stage, wire);
            self.switches[place].reply_front(input_port(self.k, wire))
        }
    }

    /// Takes the first reply before a stage on a wire.
    fn take_reply(&mut self, stage: u8, wire: u8)
        requires stage { stage ≤ self.old.k }
        requires wire { wire < 2 ^ self.old.k }
        ensures taken { net_of self.new ≡ first_reply_taken (net_of self.old) stage wire }
        ensures sizes { sizes_of self.new ≡ sizes_of self.old }
    {
        if stage == self.k {
            self.put_module_slot(wire, None);
        } else {
            self.take_ahead(stage, wire);
        }
    }

    /// Takes the first reply at the input that a wire goes to before a stage.
    fn take_ahead(&mut self, stage: u8, wire: u8)
        requires stage { stage < self.old.k }
        requires wire { wire < 2 ^ self.old.k }
        ensures taken { net_of self.new ≡ first_reply_taken (net_of self.old) stage wire }
        ensures sizes { sizes_of self.new ≡ sizes_of self.old }
    {
        omega_wires::laws::rotations_are_inverse();
        let input = input_port(self.k, wire);
        let place = self.place_before(stage, wire);
        self.switches[place].reply_take(input);
    }

    /// Answers a reply at the output of a wire after a stage.
    fn answer(&mut self, stage: u8, wire: u8, reply: Reply) -> Answered
        requires stage { stage < self.old.k }
        requires wire { wire < 2 ^ self.old.k }
        ensures answer { result ≡ (answered_on (sizes_of self.old) (net_of self.old) stage wire reply).0 }
        ensures after { net_of self.new ≡ (answered_on (sizes_of self.old) (net_of self.old) stage wire reply).1 }
        ensures sizes { sizes_of self.new ≡ sizes_of self.old }
    {
        omega_wires::laws::rotations_are_inverse();
        let place = self.place_after(stage, wire);
        self.switches[place].answer(wire % 2, reply)
    }

    /// Replaces what is in a processor's slot.
    fn put_slot(&mut self, p: u8, request: Option<Request>)
        requires { p < 2 ^ self.old.k }
        ensures after { net_of self.new ≡ put_requests (net_of self.old) 0 p (option_to_list request) }
        ensures sizes { sizes_of self.new ≡ sizes_of self.old }
    {
        self.slots[usize::from(p)] = request;
    }

    /// Replaces what is in a module's slot.
    fn put_module_slot(&mut self, m: u8, reply: Option<Reply>)
        requires { m < 2 ^ self.old.k }
        ensures after { net_of self.new ≡ put_replies (net_of self.old) self.old.k m (option_to_list reply) }
        ensures sizes { sizes_of self.new ≡ sizes_of self.old }
    {
        self.module_slots[usize::from(m)] = reply;
    }

    /// The index, among all switches, of the one that a wire comes from after a stage.
    #[tactic(auto, using(omega_network::proofs::Lemmas::place_is, omega_network::proofs::Lemmas::half_of_wire, omega_network::proofs::Lemmas::place_within))]
    fn place_after(&self, stage: u8, wire: u8) -> usize
        requires stage { stage < self.now.k }
        requires wire { wire < 2 ^ self.now.k }
        ensures exact { result ≡ stage * half self.now.k + wire / 2 }
        ensures within { result < length self.now.switches }
    {
        (usize::from(stage) * wires_of(self.k) + usize::from(wire)) / 2
    }

    /// The index, among all switches, of the one that a wire goes to before a stage.
    #[tactic(auto, using(omega_network::proofs::Lemmas::place_is, omega_network::proofs::Lemmas::half_of_wire, omega_network::proofs::Lemmas::place_within))]
    fn place_before(&self, stage: u8, wire: u8) -> usize
        requires stage { stage < self.now.k }
        requires wire { wire < 2 ^ self.now.k }
        ensures exact { result ≡ stage * half self.now.k + switch_of self.now.k wire }
        ensures within { result < length self.now.switches }
    {
        (usize::from(stage) * wires_of(self.k) + usize::from(rotate_left(self.k, wire))) / 2
    }
}

/// Slots without a message.
fn free_slots<T: Drop>(alloc: Global, count: usize) -> Result<Vec<Option<T>>, AllocError>
    ensures count { IfOk result (λ v. length v.items ≡ count) }
    ensures free { IfOk result (λ v. All IsNone v.items) }
{
    let mut slots = Vec::new(alloc);
    for _ in 0..count {
        slots.push(None)?;
    }
    Ok(slots)
}

/// Whether no slot has a message.
fn are_free<T>(slots: &[Option<T>]) -> bool
    ensures { IsTrue result ↔ All IsNone slots.now }
{
    slots.iter().all(|slot| slot.is_none())
}

/// Whether no switch has a message or a record.
fn are_empty(switches: &[Switch]) -> bool
    ensures { IsTrue result ↔ All IsEmptySwitch switches.now }
{
    switches.iter().all(Switch::is_empty)
}

/// The switches of all stages, one stage after another.
fn new_switches(alloc: Global, k: u8, c: u8, b: u8, r: u8) -> Result<Vec<Switch>, AllocError>
    requires stages { k ≤ 6 }
    requires queues { (2 ≤ c) × (c ≤ 16) }
    requires records { b ≤ 16 }
    requires combinations { (1 ≤ r) × (r ≤ 3) }
    ensures { IfOk result (λ v. AreNew k c b r v.items) }
{
    let per_stage = switches_per_stage(k);
    let mut switches = Vec::new(alloc);
    for stage in 0..k {
        for _ in 0..per_stage {
            switches.push(Switch::new(alloc, c, b, r, k - 1 - stage)?)?;
        }
    }
    Ok(switches)
}

/// The number of wires.
fn wires_of(k: u8) -> usize
    requires { k ≤ 6 }
    ensures { result ≡ 2 ^ k }
{
    1 << k
}

/// The number of switches in a stage, if there is a stage.
fn switches_per_stage(k: u8) -> usize
    requires { k ≤ 6 }
    ensures { 0 < k → result ≡ half k }
{
    (1_usize << k) >> 1
}
