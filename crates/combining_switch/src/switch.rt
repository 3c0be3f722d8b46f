//! Switches.

ghost use Rattle.std.specs.Prelude.{List, ◌≡◌, ◌↔◌, ◌-◌, ◌<◌, ◌≤◌, drop, length, slice_get, IsTrue};
ghost use Rattle.messages.specs.declared.message.Reply.{Reply};
ghost use Rattle.messages.specs.declared.message.Record.{Record};
ghost use Rattle.messages.specs.Queues.{answers, records_but, records_of, reply_of};
ghost use Rattle.combining_switch.specs.Pools.{IsFree, replies_at, requests_at, with_replies, with_requests};
ghost use Rattle.omega_wires.specs.Wires.{bit};
ghost use Rattle.combining_switch.specs.declared.answers.Accepted.TheVariants.{Full};
ghost use Rattle.combining_switch.specs.declared.answers.Answered.TheVariants.{NoRoom};
ghost use Rattle.combining_switch.specs.Outputs.{accepted, output_in};
ghost use Rattle.combining_switch.specs.Switches.{CanBeQueued, StandsIn, answered, answered_for, has_room, input_for};
ghost use Rattle.combining_switch.specs.Switches.{input_of, new_switch, output_of, put_replies, put_reply};
ghost use Rattle.combining_switch.specs.Switches.{records_at, records_for, replies_for, with_records};

use crate::answers::{Accepted, Answered};
use crate::output::Output;
use crate::pool::Pool;
use messages::{Record, Reply, Request};
use omega_wires::bit;
use std::marker::Model;

/// The most messages that a queue may hold.
pub const MAX_QUEUE: u8 = 16;

/// A switch with two inputs and two outputs, each numbered 0 and 1. Its queues are in a pool, the same at each call.
#[derive(Drop)]
pub struct Switch {
    outputs: [Output; 2],
    /// The numbers of the inputs' queues among the pool's queues of replies.
    inputs: [u16; 2],
    capacity: u8,
    its_bit: u8,
}

impl Model for Switch {
    ghost use Rattle.std.specs.Prelude.{length, ◌≡◌, ◌<◌};
    ghost use Rattle.combining_switch.specs.Switches.{SwitchState};

    ghost Value = { SwitchState };

    ghost view = { λ s. record { c = s.capacity; its_bit = s.its_bit; outputs = s.outputs; inputs = s.inputs } };

    ghost invariant = { λ s. (s.its_bit < 8) × (length s.inputs ≡ 2) };
}

impl Switch {
    /// A switch with queues of up to `c` messages and empty wait buffers of up to `b` records. A reply goes to the
    /// input that is bit `its_bit` of its leader's number. An entry of a queue of requests is combined up to `r` times.
    /// `outputs` and `inputs` are the numbers of the queues of requests and of replies.
    pub fn new(c: u8, b: u8, r: u8, its_bit: u8, outputs: (u16, u16), inputs: (u16, u16)) -> Self
        requires queues { (2 ≤ c) × (c ≤ 16) }
        requires records { b ≤ 16 }
        requires combinations { (1 ≤ r) × (r ≤ 3) }
        requires bits { its_bit < 8 }
        ensures { result ≡ new_switch c b r its_bit outputs.0 outputs.1 inputs.0 inputs.1 }
    {
        Switch {
            outputs: [
                Output::new(c, b, r, outputs.0),
                Output::new(c, b, r, outputs.1),
            ],
            inputs: [inputs.0, inputs.1],
            capacity: c,
            its_bit,
        }
    }

    /// Whether a request that is offered to an output would be combined or queued.
    pub fn would_take(&self, pool: &Pool, out: u8, request: &Request) -> bool
        requires out { out < 2 }
        requires queues { StandsIn self.now pool.now }
        ensures { IsTrue result ↔ ((accepted (output_in pool.now (output_of self.now out)) request.now).0 ≡ Full → ⊥) }
    {
        self.outputs[usize::from(out)].would_take(pool, request)
    }

    /// Offers a request to an output. Its leader's cell must be free.
    pub fn accept(&mut self, pool: &mut Pool, out: u8, request: Request) -> Accepted
        requires out { out < 2 }
        requires queues { StandsIn self.old pool.old }
        requires cell { request.leader < pool.old.cells }
        requires free { IsFree pool.old request.leader }
        ensures answer { result ≡ (accepted (output_in pool.old (output_of self.old out)) request).0 }
        ensures records { self.new
            ≡ with_records self.old out (accepted (output_in pool.old (output_of self.old out)) request).1.records }
        ensures requests { pool.new ≡ with_requests pool.old (output_of self.old out).queue
            (accepted (output_in pool.old (output_of self.old out)) request).1.requests }
    {
        // The proof needs this field's type to be named.
        let _phi = request.phi;
        self.outputs[usize::from(out)].accept(pool, request)
    }

    /// The first request of an output's queue.
    pub fn front(&self, pool: &Pool, out: u8) -> Option<Request>
        requires out { out < 2 }
        requires queues { StandsIn self.now pool.now }
        ensures { result ≡ slice_get (requests_at pool.now (output_of self.now out).queue) 0 }
    {
        self.outputs[usize::from(out)].front(pool)
    }

    /// The records of an output's wait buffer, in the order of their combinations.
    pub fn records(&self, out: u8) -> &[Record]
        requires { out < 2 }
        ensures records { result.now ≡ records_at self.now out }
        ensures few { length result.now ≤ 16 }
    {
        self.outputs[usize::from(out)].records()
    }

    /// Takes the first request of an output's queue.
    pub fn take(&self, pool: &mut Pool, out: u8) -> Option<Request>
        requires out { out < 2 }
        requires queues { StandsIn self.now pool.old }
        ensures first { result ≡ slice_get (requests_at pool.old (output_of self.now out).queue) 0 }
        ensures after { pool.new
            ≡ with_requests pool.old (output_of self.now out).queue
            (drop 1 (requests_at pool.old (output_of self.now out).queue)) }
    {
        self.outputs[usize::from(out)].take(pool)
    }

    /// Whether there is room for all replies that a reply gives at an output.
    pub fn would_answer(&self, pool: &Pool, out: u8, reply: &Reply) -> bool
        requires out { out < 2 }
        requires queues { StandsIn self.now pool.now }
        ensures { IsTrue result ↔ ((answered self.now pool.now out reply.now).0 ≡ NoRoom → ⊥) }
    {
        let records = self.records(out);
        self.has_room(pool, reply.leader, records)
    }

    /// Answers a reply that comes back to an output: the leader's own reply and those of its seconds are put at their
    /// inputs, the leader's first, or none is. The cells of all must be free.
    pub fn answer(&mut self, pool: &mut Pool, out: u8, reply: Reply) -> Answered
        requires out { out < 2 }
        requires queues { StandsIn self.old pool.old }
        requires leaders { CanBeQueued pool.old (answers (records_of reply.leader (records_at self.old out)) reply) }
        ensures answer { result ≡ (answered self.old pool.old out reply).0 }
        ensures records { self.new ≡ (answered self.old pool.old out reply).1 }
        ensures replies { pool.new ≡ (answered self.old pool.old out reply).2 }
    {
        let records = self.records(out);
        if !self.has_room(pool, reply.leader, records) {
            return Answered::NoRoom;
        }
        let answered = self.put_all(pool, reply, records);
        self.forget(out, reply.leader);
        answered
    }

    /// Drops all records of a leader at an output.
    fn forget(&mut self, out: u8, leader: u8)
        requires { out < 2 }
        ensures { self.new ≡ with_records self.old out (records_but leader (records_at self.old out)) }
    {
        self.outputs[usize::from(out)].forget(leader);
    }

    /// Whether there is room at their inputs for a leader's reply and those of its seconds.
    fn has_room(&self, pool: &Pool, leader: u8, records: &[Record]) -> bool
        requires queues { StandsIn self.now pool.now }
        requires records { length records.now ≤ 16 }
        ensures { (reply : Reply) → reply.leader ≡ leader →
            result ≡ has_room self.now.c self.now.its_bit self.now.inputs
            (put_replies self.now.its_bit self.now.inputs (answers (records_of leader records.now) reply) pool.now)
            (answers (records_of leader records.now) reply) }
    {
        count_for(self.its_bit, 0, leader, records) <= self.room_at(pool, 0)
            && count_for(self.its_bit, 1, leader, records) <= self.room_at(pool, 1)
    }

    /// The number of replies that still fit at an input.
    fn room_at(&self, pool: &Pool, inp: usize) -> usize
        requires input { inp < 2 }
        requires queues { StandsIn self.now pool.now }
        ensures { result ≡ self.now.c - length (replies_at pool.now (input_of self.now.inputs inp)) }
    {
        let queued = pool.reply_count(usize::from(self.inputs[inp]));
        usize::from(self.capacity.saturating_sub(queued))
    }

    /// Puts a leader's reply and those of its seconds, each at its own leader's input, and returns who is answered.
    fn put_all(&self, pool: &mut Pool, reply: Reply, records: &[Record]) -> Answered
        requires queues { StandsIn self.now pool.old }
        requires leaders { CanBeQueued pool.old (answers (records_of reply.leader records.now) reply) }
        ensures answer { result ≡ answered_for (records_of reply.leader records.now) }
        ensures replies { pool.new
            ≡ put_replies self.now.its_bit self.now.inputs (answers
            (records_of reply.leader records.now) reply) pool.old }
    {
        self.put(pool, reply);
        let mut answered = Answered::One;
        for record in records {
            if record.leader == reply.leader {
                self.put(pool, second_reply(record, reply.value));
                answered = answered.and(record.second);
            }
        }
        answered
    }

    /// Appends a reply at its leader's input.
    fn put(&self, pool: &mut Pool, reply: Reply)
        requires queue { input_for self.now.its_bit self.now.inputs reply.leader < length pool.old.replies }
        requires cell { reply.leader < pool.old.cells }
        requires free { IsFree pool.old reply.leader }
        ensures { pool.new ≡ put_reply self.now.its_bit self.now.inputs pool.old reply }
    {
        let inp = usize::from(bit(self.its_bit, reply.leader));
        pool.push_reply(usize::from(self.inputs[inp]), reply);
    }

    /// The first reply of an input's queue.
    pub fn reply_front(&self, pool: &Pool, inp: u8) -> Option<Reply>
        requires input { inp < 2 }
        requires queues { StandsIn self.now pool.now }
        ensures { result ≡ slice_get (replies_at pool.now (input_of self.now.inputs inp)) 0 }
    {
        pool.front_reply(usize::from(self.inputs[usize::from(inp)]))
    }

    /// Takes the first reply of an input's queue.
    pub fn reply_take(&self, pool: &mut Pool, inp: u8) -> Option<Reply>
        requires input { inp < 2 }
        requires queues { StandsIn self.now pool.old }
        ensures first { result ≡ slice_get (replies_at pool.old (input_of self.now.inputs inp)) 0 }
        ensures after { pool.new
            ≡ with_replies pool.old (input_of self.now.inputs inp)
            (drop 1 (replies_at pool.old (input_of self.now.inputs inp))) }
    {
        pool.pop_reply(usize::from(self.inputs[usize::from(inp)]))
    }
}

/// The reply for the second of a record, if the leader gets this value.
fn second_reply(made: &Record, value: u32) -> Reply
    ensures { result ≡ reply_of value made.now }
{
    Reply {
        leader: made.second,
        value: made.phi.apply(value),
    }
}

/// How many of the replies that a leader's reply gives are for an input.
fn count_for(its_bit: u8, inp: u8, leader: u8, records: &[Record]) -> usize
    requires bits { its_bit < 8 }
    requires records { length records.now ≤ 16 }
    ensures { (reply : Reply) → reply.leader ≡ leader →
        result ≡ length (replies_for its_bit inp (answers (records_of leader records.now) reply)) }
{
    usize::from(bit(its_bit, leader) == inp) + count_seconds(its_bit, inp, leader, records)
}

/// How many records of a leader have a second whose reply is for an input.
fn count_seconds(its_bit: u8, inp: u8, leader: u8, records: &[Record]) -> usize
    requires { its_bit < 8 }
    ensures exact { result ≡ length (records_for its_bit inp leader records.now) }
    ensures few { result ≤ length records.now }
{
    records
        .iter()
        .filter(|made| made.leader == leader && bit(its_bit, made.second) == inp)
        .count()
}
