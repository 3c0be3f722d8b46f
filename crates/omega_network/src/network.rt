//! Networks.

ghost use Rattle.std.specs.Prelude.{◌≡◌, ◌↔◌, ◌<◌, ◌≤◌, ◌^◌, ◌/◌, ◌*◌, ◌+◌, ◌||◌, suc, [], drop, length, slice_get};
ghost use Rattle.std.specs.Prelude.{is_some, All, IfOk, IfSome, IsTrue};
ghost use Rattle.messages.specs.declared.moves.UpMove.TheVariants as up;
ghost use Rattle.messages.specs.declared.moves.DownMove.TheVariants as down;
ghost use Rattle.messages.specs.Queues.{records_of};
ghost use Rattle.messages.specs.Network.{IsEmptyNet, Sizes, put_replies, put_requests};
ghost use Rattle.messages.specs.Naming.{Names, Unnamed};
ghost use Rattle.messages.specs.Moves.{answer, injected, module_replied, module_taken, moved_down, moved_up, offered};
ghost use Rattle.messages.specs.Moves.{port_taken};
ghost use Rattle.std.specs.List.{list_any};
ghost use Rattle.combining_switch.specs.Switches.{records_at};
ghost use Rattle.omega_network.specs.Answers.{down_of, up_of};
ghost use Rattle.omega_network.specs.Networks.{AreNew, HasNoMessage, HasNoRecord, MayLead, half, is_named, is_second};
ghost use Rattle.omega_network.specs.Networks.{net_of, place, sizes_of, the_switch};

use combining_switch::{Accepted, Answered, Pool, Switch};
use messages::{DownMove, Record, Reply, Request, UpMove, laws};
use omega_wires::{module_of, wire_after};
use phi_algebra::Phi;
use std::alloc::{AllocError, Global};
use std::marker::Model;

/// A network of `k` stages, with queues of up to `c` messages and wait buffers of up to `b` records. An entry of a
/// queue is combined up to `r` times. Processors, modules, wires and stages are numbered from 0.
#[derive(Drop)]
pub struct Network {
    /// The queues before each stage and after the last, ordered by depth and then by wire.
    pool: Pool,
    /// The switches, stage by stage.
    switches: Vec<Switch>,
    k: u8,
    c: u8,
    b: u8,
    r: u8,
}

impl Model for Network {
    ghost use Rattle.omega_network.specs.Networks.{IsNetwork, NetworkLists};

    ghost Value = { NetworkLists };

    ghost view = { λ n. record { k = n.k; c = n.c; b = n.b; r = n.r; pool = n.pool; switches = n.switches.items } };

    ghost invariant = { λ n. IsNetwork (record {
      k = n.k;
      c = n.c;
      b = n.b;
      r = n.r;
      pool = n.pool;
      switches = n.switches.items;
    }) };
}

impl Network {
    /// An empty network of `k` stages, 0 to 6, with queues of `c` messages, 2 to 16, and wait buffers of `b` records, 0
    /// to 16. An entry of a queue is combined up to `r` times, 1 to 3. Without a stage, the processor's slot is the
    /// module's.
    ///
    /// # Errors
    ///
    /// `AllocError` if there is no memory for it.
    pub fn new(alloc: Global, k: u8, c: u8, b: u8, r: u8) -> Result<Self, AllocError>
        requires stages { k ≤ 6 }
        requires queues { (2 ≤ c) × (c ≤ 16) }
        requires records { b ≤ 16 }
        requires combinations { (1 ≤ r) × (r ≤ 3) }
        ensures empty { IfOk result (λ n. IsEmptyNet (net_of n)) }
        ensures sizes { IfOk result (λ n. sizes_of n ≡ record { k = k; c = c; b = b; r = r }) }
    {
        // The proof needs the type of a request's function to be named.
        let _phi = Phi::identity();
        let queues = queues_of(k);
        Ok(Network {
            pool: Pool::new(alloc, wires_of(k), queues, queues)?,
            switches: new_switches(alloc, k, c, b, r)?,
            k,
            c,
            b,
            r,
        })
    }

    /// The number of stages.
    pub fn stages(&self) -> u8
        ensures { result ≡ self.now.k }
    {
        self.k
    }

    /// The number of processors, of modules, and of wires before and after each stage.
    pub fn wires(&self) -> u8
        ensures { result ≡ 2 ^ self.now.k }
    {
        1 << self.k
    }

    /// Whether the network has no request, no record and no reply.
    pub fn is_empty(&self) -> bool
        ensures { IsTrue result ↔ IsEmptyNet (net_of self.now) }
    {
        has_no_message(&self.pool, queues_of(self.k)) && have_no_record(&self.switches)
    }

    /// Whether a message or a record names a processor, as the leader or as the second of a record. It looks through
    /// all queues and wait buffers.
    pub fn names(&self, p: u8) -> bool
        ensures { IsTrue result ↔ Names (net_of self.now) p }
    {
        !self.pool.is_free(p) || are_named(&self.switches, p)
    }

    /// Whether a processor leads no message and is the second of no record, so that a reply for it may be put in. It
    /// looks through all queues and wait buffers.
    pub fn may_reply(&self, p: u8) -> bool
        ensures { IsTrue result ↔ Unnamed (net_of self.now) p }
    {
        self.pool.is_free(p) && !are_second(&self.switches, p)
    }

    /// Whether a processor's slot has no request.
    pub fn slot_is_free(&self, p: u8) -> bool
        requires { p < 2 ^ self.now.k }
        ensures { IsTrue result ↔ ((net_of self.now).requests 0 p ≡ []) }
    {
        self.request_before(0, p).is_none()
    }

    /// Puts a processor's request into its slot, which must be free. No message or record may name the processor.
    #[tactic(auto, unfolding(messages::specs::Moves::injected))]
    pub fn inject(&mut self, p: u8, request: Request)
        requires processor { p < 2 ^ self.old.k }
        requires leader { request.leader ≡ p }
        requires free { (net_of self.old).requests 0 p ≡ [] }
        requires unnamed { Names (net_of self.old) p → ⊥ }
        ensures after { net_of self.new ≡ injected (net_of self.old) request }
        ensures sizes { sizes_of self.new ≡ sizes_of self.old }
    {
        let queue = self.place(0, p);
        self.pool.push_request(queue, request);
    }

    /// Moves the first request on a wire before a stage: it is offered to the output that leads to the module of its
    /// word.
    #[inline(always)]
    pub fn up(&mut self, stage: u8, wire: u8) -> UpMove
        requires stage { stage < self.old.k }
        requires wire { wire < 2 ^ self.old.k }
        ensures outcome { result ≡ (moved_up (sizes_of self.old) (net_of self.old) stage wire).0 }
        ensures after { net_of self.new ≡ (moved_up (sizes_of self.old) (net_of self.old) stage wire).1 }
        ensures sizes { sizes_of self.new ≡ sizes_of self.old }
    {
        let Some(request) = self.request_before(stage, wire) else {
            laws::moves_of_nothing_stall();
            return UpMove::Stalled;
        };
        self.move_up(stage, wire, request)
    }

    /// Moves this request, the first on a wire before a stage.
    #[inline(always)]
    fn move_up(&mut self, stage: u8, wire: u8, request: Request) -> UpMove
        requires stage { stage < self.old.k }
        requires wire { wire < 2 ^ self.old.k }
        requires first { slice_get ((net_of self.old).requests stage wire) 0 ≡ Some request }
        ensures outcome { result ≡ (moved_up (sizes_of self.old) (net_of self.old) stage wire).0 }
        ensures after { net_of self.new ≡ (moved_up (sizes_of self.old) (net_of self.old) stage wire).1 }
        ensures sizes { sizes_of self.new ≡ sizes_of self.old }
    {
        let out = wire_after(self.k, stage, wire, module_of(request.word, self.k));
        if !self.would_take(stage, out, &request) {
            return UpMove::Stalled;
        }
        self.take_request(stage, wire);
        self.offer(stage, out, request)
    }

    /// Moves the first reply on a wire after a stage back over the stage: it is answered at the output that the wire
    /// comes from.
    #[inline(always)]
    pub fn down(&mut self, stage: u8, wire: u8) -> DownMove
        requires stage { stage < self.old.k }
        requires wire { wire < 2 ^ self.old.k }
        ensures outcome { result ≡ (moved_down (sizes_of self.old) (net_of self.old) stage wire).0 }
        ensures after { net_of self.new ≡ (moved_down (sizes_of self.old) (net_of self.old) stage wire).1 }
        ensures sizes { sizes_of self.new ≡ sizes_of self.old }
    {
        // For the proof: a network has at most six stages.
        let _ = &self.k;
        let Some(reply) = self.reply_before(stage + 1, wire) else {
            laws::moves_of_nothing_stall();
            return DownMove::Stalled;
        };
        self.move_down(stage, wire, reply)
    }

    /// Moves this reply, the first on a wire after a stage, back over the stage.
    #[inline(always)]
    fn move_down(&mut self, stage: u8, wire: u8, reply: Reply) -> DownMove
        requires stage { stage < self.old.k }
        requires wire { wire < 2 ^ self.old.k }
        requires first { slice_get ((net_of self.old).replies (suc stage) wire) 0 ≡ Some reply }
        ensures outcome { result ≡ (moved_down (sizes_of self.old) (net_of self.old) stage wire).0 }
        ensures after { net_of self.new ≡ (moved_down (sizes_of self.old) (net_of self.old) stage wire).1 }
        ensures sizes { sizes_of self.new ≡ sizes_of self.old }
    {
        // For the proof: a network has at most six stages.
        let _ = &self.k;
        if !self.would_answer(stage, wire, &reply) {
            return DownMove::Stalled;
        }
        self.take_reply(stage + 1, wire);
        self.answer(stage, wire, reply)
    }

    /// The first request at a module.
    pub fn module_front(&self, m: u8) -> Option<Request>
        requires { m < 2 ^ self.now.k }
        ensures { result ≡ slice_get ((net_of self.now).requests self.now.k m) 0 }
    {
        self.request_before(self.k, m)
    }

    /// Takes the first request at a module.
    #[tactic(auto, unfolding(messages::specs::Moves::module_taken))]
    pub fn module_take(&mut self, m: u8) -> Option<Request>
        requires { m < 2 ^ self.old.k }
        ensures first { result ≡ slice_get ((net_of self.old).requests self.old.k m) 0 }
        ensures after { net_of self.new ≡ module_taken (sizes_of self.old) (net_of self.old) m }
        ensures sizes { sizes_of self.new ≡ sizes_of self.old }
    {
        self.take_request(self.k, m)
    }

    /// Whether a module's slot has no reply.
    pub fn module_is_free(&self, m: u8) -> bool
        requires { m < 2 ^ self.now.k }
        ensures { IsTrue result ↔ ((net_of self.now).replies self.now.k m ≡ []) }
    {
        self.reply_before(self.k, m).is_none()
    }

    /// Puts a reply into a module's slot, which must be free. The reply's leader may lead no message, and may be the
    /// second of no record.
    #[tactic(auto, unfolding(messages::specs::Moves::module_replied))]
    pub fn module_reply(&mut self, m: u8, reply: Reply)
        requires at_module { m < 2 ^ self.old.k }
        requires free { (net_of self.old).replies self.old.k m ≡ [] }
        requires leader { reply.leader < 2 ^ self.old.k }
        requires unnamed { Unnamed (net_of self.old) reply.leader }
        ensures after { net_of self.new ≡ module_replied (sizes_of self.old) (net_of self.old) m reply }
        ensures sizes { sizes_of self.new ≡ sizes_of self.old }
    {
        let queue = self.place(self.k, m);
        self.pool.push_reply(queue, reply);
    }

    /// The first reply on a processor's wire.
    pub fn port_reply(&self, p: u8) -> Option<Reply>
        requires { p < 2 ^ self.now.k }
        ensures { result ≡ slice_get ((net_of self.now).replies 0 p) 0 }
    {
        self.reply_before(0, p)
    }

    /// Takes the first reply on a processor's wire.
    #[tactic(auto, unfolding(messages::specs::Moves::port_taken))]
    pub fn port_take(&mut self, p: u8) -> Option<Reply>
        requires { p < 2 ^ self.old.k }
        ensures first { result ≡ slice_get ((net_of self.old).replies 0 p) 0 }
        ensures after { net_of self.new ≡ port_taken (net_of self.old) p }
        ensures sizes { sizes_of self.new ≡ sizes_of self.old }
    {
        self.take_reply(0, p)
    }

    /// Whether there is a request before a stage on a wire, or at a module if the stage is `k`.
    pub fn has_request(&self, stage: u8, wire: u8) -> bool
        requires stage { stage ≤ self.now.k }
        requires wire { wire < 2 ^ self.now.k }
        ensures { result ≡ is_some (slice_get ((net_of self.now).requests stage wire) 0) }
    {
        self.request_before(stage, wire).is_some()
    }

    /// Whether there is a reply before a stage on a wire, or at a module if the stage is `k`.
    pub fn has_reply(&self, stage: u8, wire: u8) -> bool
        requires stage { stage ≤ self.now.k }
        requires wire { wire < 2 ^ self.now.k }
        ensures { result ≡ is_some (slice_get ((net_of self.now).replies stage wire) 0) }
    {
        self.reply_before(stage, wire).is_some()
    }

    /// The request at `place` before a stage on a wire, or at a module if the stage is `k`. The first is at 0.
    pub fn request(&self, stage: u8, wire: u8, place: usize) -> Option<Request>
        requires stage { stage ≤ self.now.k }
        requires wire { wire < 2 ^ self.now.k }
        ensures { result ≡ slice_get ((net_of self.now).requests stage wire) place }
    {
        let queue = self.place(stage, wire);
        self.pool.request(queue, place)
    }

    /// The reply at `place` before a stage on a wire, or at a module if the stage is `k`. The first is at 0.
    pub fn reply(&self, stage: u8, wire: u8, place: usize) -> Option<Reply>
        requires stage { stage ≤ self.now.k }
        requires wire { wire < 2 ^ self.now.k }
        ensures { result ≡ slice_get ((net_of self.now).replies stage wire) place }
    {
        let queue = self.place(stage, wire);
        self.pool.reply(queue, place)
    }

    /// The number of requests in the queue at the output of a wire after a stage.
    pub fn request_count(&self, stage: u8, wire: u8) -> usize
        requires stage { stage < self.now.k }
        requires wire { wire < 2 ^ self.now.k }
        ensures { result ≡ length ((net_of self.now).requests (suc stage) wire) }
    {
        usize::from(self.pool.request_count(self.place(stage + 1, wire)))
    }

    /// The number of replies in the queue at the input of a wire before a stage.
    pub fn reply_count(&self, stage: u8, wire: u8) -> usize
        requires stage { stage < self.now.k }
        requires wire { wire < 2 ^ self.now.k }
        ensures { result ≡ length ((net_of self.now).replies stage wire) }
    {
        usize::from(self.pool.reply_count(self.place(stage, wire)))
    }

    /// The records of the wait buffer at the output of a wire after a stage, in the order of their combinations.
    pub fn records(&self, stage: u8, wire: u8) -> &[Record]
        requires stage { stage < self.now.k }
        requires wire { wire < 2 ^ self.now.k }
        ensures { result.now ≡ (net_of self.now).records stage wire }
    {
        self.switches[self.switch_after(stage, wire)].records(wire % 2)
    }

    /// The first request before a stage on a wire, or at a module if the stage is `k`.
    fn request_before(&self, stage: u8, wire: u8) -> Option<Request>
        requires stage { stage ≤ self.now.k }
        requires wire { wire < 2 ^ self.now.k }
        ensures { result ≡ slice_get ((net_of self.now).requests stage wire) 0 }
    {
        self.pool.front_request(self.place(stage, wire))
    }

    /// Takes the first request before a stage on a wire. Its leader then leads no message.
    fn take_request(&mut self, stage: u8, wire: u8) -> Option<Request>
        requires stage { stage ≤ self.old.k }
        requires wire { wire < 2 ^ self.old.k }
        ensures first { result ≡ slice_get ((net_of self.old).requests stage wire) 0 }
        ensures taken { net_of self.new
            ≡ put_requests (net_of self.old) stage wire (drop 1 ((net_of self.old).requests stage wire)) }
        ensures sizes { sizes_of self.new ≡ sizes_of self.old }
        ensures unnamed { IfSome result (λ x. MayLead self.new x.leader) }
    {
        let queue = self.place(stage, wire);
        self.pool.pop_request(queue)
    }

    /// The first reply before a stage on a wire, or at a module if the stage is `k`.
    fn reply_before(&self, stage: u8, wire: u8) -> Option<Reply>
        requires stage { stage ≤ self.now.k }
        requires wire { wire < 2 ^ self.now.k }
        ensures { result ≡ slice_get ((net_of self.now).replies stage wire) 0 }
    {
        self.pool.front_reply(self.place(stage, wire))
    }

    /// Takes the first reply before a stage on a wire. Its leader then leads no message.
    fn take_reply(&mut self, stage: u8, wire: u8) -> Option<Reply>
        requires stage { stage ≤ self.old.k }
        requires wire { wire < 2 ^ self.old.k }
        ensures first { result ≡ slice_get ((net_of self.old).replies stage wire) 0 }
        ensures taken { net_of self.new
            ≡ put_replies (net_of self.old) stage wire (drop 1 ((net_of self.old).replies stage wire)) }
        ensures sizes { sizes_of self.new ≡ sizes_of self.old }
        ensures unnamed { IfSome result (λ y. MayLead self.new y.leader) }
    {
        let queue = self.place(stage, wire);
        self.pool.pop_reply(queue)
    }

    /// Whether a request that is offered to the output of a wire after a stage would be combined or queued.
    fn would_take(&self, stage: u8, wire: u8, request: &Request) -> bool
        requires stage { stage < self.now.k }
        requires wire { wire < 2 ^ self.now.k }
        ensures { IsTrue result
            ↔ ((offered (sizes_of self.now) (net_of self.now) (net_of self.now) stage wire request.now).0
            ≡ up.Stalled → ⊥) }
    {
        self.switches[self.switch_after(stage, wire)].would_take(&self.pool, wire % 2, request)
    }

    /// Offers a request, which was taken out of its place, to the output of a wire after a stage.
    fn offer(&mut self, stage: u8, wire: u8, request: Request) -> UpMove
        requires stage { stage < self.old.k }
        requires wire { wire < 2 ^ self.old.k }
        requires leader { MayLead self.old request.leader }
        ensures outcome { result
            ≡ (offered (sizes_of self.old) (net_of self.old) (net_of self.old) stage wire request).0 }
        ensures after { net_of self.new
            ≡ (offered (sizes_of self.old) (net_of self.old) (net_of self.old) stage wire request).1 }
        ensures sizes { sizes_of self.new ≡ sizes_of self.old }
    {
        let second = request.leader;
        let place = self.switch_after(stage, wire);
        let answer = self.switches[place].accept(&mut self.pool, wire % 2, request);
        up_of(answer, second)
    }

    /// Whether there is room for the replies that a reply gives at the output of a wire after a stage.
    fn would_answer(&self, stage: u8, wire: u8, reply: &Reply) -> bool
        requires stage { stage < self.now.k }
        requires wire { wire < 2 ^ self.now.k }
        ensures { IsTrue result ↔ ((answer (sizes_of self.now) (net_of self.now) (net_of self.now) stage wire reply.now
            (records_of reply.now.leader ((net_of self.now).records stage wire))).0 ≡ down.Stalled → ⊥) }
    {
        self.switches[self.switch_after(stage, wire)].would_answer(&self.pool, wire % 2, reply)
    }

    /// Answers a reply, which was taken out of its place, at the output of a wire after a stage.
    fn answer(&mut self, stage: u8, wire: u8, reply: Reply) -> DownMove
        requires stage { stage < self.old.k }
        requires wire { wire < 2 ^ self.old.k }
        requires leader { MayLead self.old reply.leader }
        ensures outcome { result ≡ (answer (sizes_of self.old) (net_of self.old) (net_of self.old) stage wire reply
            (records_of reply.leader ((net_of self.old).records stage wire))).0 }
        ensures after { net_of self.new
            ≡ (answer (sizes_of self.old) (net_of self.old) (net_of self.old) stage wire reply
            (records_of reply.leader ((net_of self.old).records stage wire))).1 }
        ensures sizes { sizes_of self.new ≡ sizes_of self.old }
    {
        let place = self.switch_after(stage, wire);
        let answer = self.switches[place].answer(&mut self.pool, wire % 2, reply);
        down_of(answer)
    }

    /// The number of the queues before a stage on a wire, or at a module if the stage is `k`.
    fn place(&self, stage: u8, wire: u8) -> usize
        requires stage { stage ≤ self.now.k }
        requires wire { wire < 2 ^ self.now.k }
        ensures exact { result ≡ place self.now.k stage wire }
        ensures requests { result < length self.now.pool.requests }
        ensures replies { result < length self.now.pool.replies }
    {
        usize::from(stage) * usize::from(wires_of(self.k)) + usize::from(wire)
    }

    /// The index, among all switches, of the one that a wire comes from after a stage.
    #[tactic(auto, using(crate::proofs::Switches::place_is, crate::proofs::Switches::half_of_wire, crate::proofs::Switches::place_within))]
    fn switch_after(&self, stage: u8, wire: u8) -> usize
        requires stage { stage < self.now.k }
        requires wire { wire < 2 ^ self.now.k }
        ensures exact { result ≡ stage * half self.now.k + wire / 2 }
        ensures within { result < length self.now.switches }
    {
        (usize::from(stage) * usize::from(wires_of(self.k)) + usize::from(wire)) / 2
    }
}

/// The outcome of moving a request that `second` leads, by the switch's answer.
fn up_of(answer: Accepted, second: u8) -> UpMove
    ensures { result ≡ up_of answer second }
{
    match answer {
        Accepted::Queued => UpMove::Moved,
        Accepted::Combined { first } => UpMove::Combined { first, second },
        Accepted::Full => UpMove::Stalled,
    }
}

/// The outcome of moving a reply, by the switch's answer.
fn down_of(answer: Answered) -> DownMove
    ensures { result ≡ down_of answer }
{
    match answer {
        Answered::One => DownMove::Moved,
        Answered::Many { seconds } => DownMove::Answered { to: seconds },
        Answered::NoRoom => DownMove::Stalled,
    }
}

/// Whether no queue of a pool has a message; there are this many of each kind.
fn has_no_message(pool: &Pool, queues: u16) -> bool
    requires requests { length pool.now.requests ≡ queues }
    requires replies { length pool.now.replies ≡ queues }
    ensures { IsTrue result ↔ HasNoMessage pool.now }
{
    for queue in 0..usize::from(queues) {
        if pool.request_count(queue) != 0 || pool.reply_count(queue) != 0 {
            return false;
        }
    }
    true
}

/// Whether no switch has a record.
fn have_no_record(switches: &[Switch]) -> bool
    ensures { IsTrue result ↔ All HasNoRecord switches.now }
{
    switches.iter().all(has_no_record)
}

/// Whether a switch has no record.
fn has_no_record(switch: &Switch) -> bool
    ensures { IsTrue result ↔ HasNoRecord switch.now }
{
    switch.records(0).is_empty() && switch.records(1).is_empty()
}

/// Whether a record of one of the switches names a processor.
fn are_named(switches: &[Switch], p: u8) -> bool
    ensures { result ≡ list_any (λ t. is_named p (records_at t 0) || is_named p (records_at t 1)) switches.now }
{
    switches.iter().any(|switch| is_named(p, switch.records(0)) || is_named(p, switch.records(1)))
}

/// Whether one of the records names a processor, as the leader or as the second.
fn is_named(p: u8, records: &[Record]) -> bool
    ensures { result ≡ is_named p records.now }
{
    records
        .iter()
        .any(|record| record.leader == p || record.second == p)
}

/// Whether a record of one of the switches has a processor as its second.
fn are_second(switches: &[Switch], p: u8) -> bool
    ensures { result ≡ list_any (λ t. is_second p (records_at t 0) || is_second p (records_at t 1)) switches.now }
{
    switches.iter().any(|switch| is_second(p, switch.records(0)) || is_second(p, switch.records(1)))
}

/// Whether one of the records has a processor as its second.
fn is_second(p: u8, records: &[Record]) -> bool
    ensures { result ≡ is_second p records.now }
{
    records.iter().any(|record| record.second == p)
}

/// The switches of all stages, one stage after another.
fn new_switches(alloc: Global, k: u8, c: u8, b: u8, r: u8) -> Result<Vec<Switch>, AllocError>
    requires stages { k ≤ 6 }
    requires queues { (2 ≤ c) × (c ≤ 16) }
    requires records { b ≤ 16 }
    requires combinations { (1 ≤ r) × (r ≤ 3) }
    ensures { IfOk result (λ v. AreNew k c b r v.items) }
{
    let per_stage = wires_of(k) / 2;
    let mut switches = Vec::new(alloc);
    for stage in 0..k {
        for number in 0..per_stage {
            switches.push(new_switch(k, c, b, r, stage, number))?;
        }
    }
    Ok(switches)
}

/// The switch with this number in a stage. Its outputs are the wires after it whose numbers are twice its own, and one
/// more; its inputs are the wires before it that the shuffle brings to these.
fn new_switch(k: u8, c: u8, b: u8, r: u8, stage: u8, number: u8) -> Switch
    requires stages { k ≤ 6 }
    requires queues { (2 ≤ c) × (c ≤ 16) }
    requires records { b ≤ 16 }
    requires combinations { (1 ≤ r) × (r ≤ 3) }
    requires stage { stage < k }
    requires number { number < half k }
    ensures { result ≡ the_switch k c b r stage number [] [] }
{
    let wires = u16::from(wires_of(k));
    let before = u16::from(stage) * wires + u16::from(number);
    let behind = (u16::from(stage) + 1) * wires + 2 * u16::from(number);
    Switch::new(
        c,
        b,
        r,
        k - 1 - stage,
        (behind, behind + 1),
        (before, before + wires / 2),
    )
}

/// The number of wires.
fn wires_of(k: u8) -> u8
    requires { k ≤ 6 }
    ensures exact { result ≡ 2 ^ k }
    ensures few { result ≤ 64 }
{
    1 << k
}

/// The number of queues of requests, and of replies.
fn queues_of(k: u8) -> u16
    requires { k ≤ 6 }
    ensures { result ≡ suc k * 2 ^ k }
{
    (u16::from(k) + 1) * u16::from(wires_of(k))
}
