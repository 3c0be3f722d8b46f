//! Switches.

ghost use Rattle.std.specs.Prelude.{List, ◌≡◌, ◌↔◌, ◌+◌, ◌++◌, ◌<◌, ◌≤◌, drop, length, slice_get, slice_set, IfOk};
ghost use Rattle.std.specs.Prelude.{IsTrue};
ghost use Rattle.messages.specs.declared.message.Reply.{Reply};
ghost use Rattle.messages.specs.declared.message.Record.{Record};
ghost use Rattle.messages.specs.Queues.{answers, records_but, records_of};
ghost use Rattle.omega_wires.specs.Wires.{bit};
ghost use Rattle.combining_switch.specs.Outputs.{accepted};
ghost use Rattle.combining_switch.specs.Switches.{answered_for, replies_for};
ghost use Rattle.ring_network.specs.Switches.{IsEmptySwitch, answered, empty_switch, has_room, output_of};
ghost use Rattle.ring_network.specs.Switches.{put_replies, put_reply, records_at, replies_at, requests_at};
ghost use Rattle.ring_network.specs.Switches.{with_inputs, with_output, with_records, with_requests};

use crate::output::Output;
use crate::replies::Replies;
use circular_buffer::HeapCircularBuffer;
use combining_switch::{Accepted, Answered};
use messages::{Record, Reply, Request, Seconds};
use omega_wires::bit;
use std::alloc::{AllocError, Global};
use std::marker::Model;

/// A switch with two inputs and two outputs, each numbered 0 and 1.
#[derive(Drop)]
pub struct Switch {
    outputs: [Output; 2],
    inputs: [HeapCircularBuffer<Reply>; 2],
    capacity: u8,
    its_bit: u8,
}

impl Model for Switch {
    ghost use Rattle.std.specs.Prelude.{map, length, All, ◌≡◌, ◌<◌};
    ghost use Rattle.ring_network.specs.Switches.{SwitchLists};

    ghost Value = { SwitchLists };

    ghost view = { λ s. record {
      c = s.capacity;
      its_bit = s.its_bit;
      outputs = s.outputs;
      inputs = map (λ q. q.items) s.inputs;
    } };

    ghost invariant = { λ s. (s.its_bit < 8) × (length s.inputs ≡ 2) × All (λ q. q.capacity ≡ s.capacity) s.inputs };
}

impl Switch {
    /// An empty switch with queues of up to `c` messages and wait buffers of up to `b` records. A reply goes to the
    /// input that is bit `its_bit` of its leader's number. An entry of a queue of requests is combined up to `r` times.
    ///
    /// # Errors
    ///
    /// `AllocError` if there is no memory for the queues.
    pub fn new(alloc: Global, c: u8, b: u8, r: u8, its_bit: u8) -> Result<Self, AllocError>
        requires queues { (2 ≤ c) × (c ≤ 16) }
        requires records { b ≤ 16 }
        requires combinations { (1 ≤ r) × (r ≤ 3) }
        requires bits { its_bit < 8 }
        ensures { IfOk result (λ s. s ≡ empty_switch c b r its_bit) }
    {
        let capacity = usize::from(c);
        Ok(Switch {
            outputs: [Output::new(alloc, c, b, r)?, Output::new(alloc, c, b, r)?],
            inputs: [
                HeapCircularBuffer::with_capacity(alloc, capacity)?,
                HeapCircularBuffer::with_capacity(alloc, capacity)?,
            ],
            capacity: c,
            its_bit,
        })
    }

    /// Offers a request to an output.
    pub fn accept(&mut self, out: u8, request: Request) -> Accepted
        requires { out < 2 }
        ensures answer { result ≡ (accepted (output_of self.old out) request).0 }
        ensures after { self.new ≡ with_output self.old out (accepted (output_of self.old out) request).1 }
    {
        // The proof needs this field's type to be named.
        let _phi = request.phi;
        self.outputs[usize::from(out)].accept(request)
    }

    /// The first request of an output's queue.
    pub fn front(&self, out: u8) -> Option<Request>
        requires { out < 2 }
        ensures { result ≡ slice_get (requests_at self.now out) 0 }
    {
        self.outputs[usize::from(out)].front()
    }

    /// The requests of an output's queue from the first on, in two parts.
    pub fn requests(&self, out: u8) -> (&[Request], &[Request])
        requires { out < 2 }
        ensures { result.0.now ++ result.1.now ≡ requests_at self.now out }
    {
        self.outputs[usize::from(out)].requests()
    }

    /// The records of an output's wait buffer, in the order of their combinations.
    pub fn records(&self, out: u8) -> &[Record]
        requires { out < 2 }
        ensures { result.now ≡ records_at self.now out }
    {
        self.outputs[usize::from(out)].records()
    }

    /// The number of requests in an output's queue.
    pub fn request_count(&self, out: u8) -> usize
        requires { out < 2 }
        ensures { result ≡ length (requests_at self.now out) }
    {
        self.outputs[usize::from(out)].request_count()
    }

    /// The number of replies in an input's queue.
    pub fn reply_count(&self, inp: u8) -> usize
        requires { inp < 2 }
        ensures { result ≡ length (replies_at self.now.inputs inp) }
    {
        self.inputs[usize::from(inp)].len()
    }

    /// The replies of an input's queue from the first on, in two parts.
    pub fn replies(&self, inp: u8) -> (&[Reply], &[Reply])
        requires { inp < 2 }
        ensures { result.0.now ++ result.1.now ≡ replies_at self.now.inputs inp }
    {
        self.inputs[usize::from(inp)].as_slices()
    }

    /// Takes the first request of an output's queue.
    pub fn take(&mut self, out: u8) -> Option<Request>
        requires { out < 2 }
        ensures first { result ≡ slice_get (requests_at self.old out) 0 }
        ensures after { self.new ≡ with_requests self.old out (drop 1 (requests_at self.old out)) }
    {
        self.outputs[usize::from(out)].take()
    }

    /// Answers a reply that comes back to an output: the leader's own reply and those of its seconds are put at their
    /// inputs, the leader's first, or none is.
    pub fn answer(&mut self, out: u8, reply: Reply) -> Answered
        requires { out < 2 }
        ensures answer { result ≡ (answered self.old out reply).0 }
        ensures after { self.new ≡ (answered self.old out reply).1 }
    {
        let answers = self.answers(out, reply);
        let replies = answers.as_slice();
        if !self.has_room(replies) {
            return Answered::NoRoom;
        }
        self.put_all(replies);
        self.forget(out, reply.leader);
        outcome(replies)
    }

    /// The replies that a reply gives when it comes back to an output.
    fn answers(&self, out: u8, reply: Reply) -> Replies
        requires { out < 2 }
        ensures { result.items ≡ answers (records_of reply.leader (records_at self.now out)) reply }
    {
        self.outputs[usize::from(out)].answers(reply)
    }

    /// Drops all records of a leader at an output.
    fn forget(&mut self, out: u8, leader: u8)
        requires { out < 2 }
        ensures { self.new ≡ with_records self.old out (records_but leader (records_at self.old out)) }
    {
        self.outputs[usize::from(out)].forget(leader);
    }

    /// Whether there is room for all of these replies at their inputs.
    fn has_room(&self, replies: &[Reply]) -> bool
        ensures two { length self.now.inputs ≡ 2 }
        ensures room { result
            ≡ has_room self.now.c self.now.its_bit (put_replies self.now.its_bit replies.now self.now.inputs)
            replies.now }
    {
        count_for(self.its_bit, 0, replies) <= self.room_at(0)
            && count_for(self.its_bit, 1, replies) <= self.room_at(1)
    }

    /// The number of replies that still fit at an input.
    fn room_at(&self, inp: usize) -> usize
        requires { inp < 2 }
        ensures { result + length (replies_at self.now.inputs inp) ≡ self.now.c }
    {
        let queue = &self.inputs[inp];
        queue.capacity() - queue.len()
    }

    /// Appends each reply at its leader's input, where there must be room.
    fn put_all(&mut self, replies: &[Reply])
        requires two { length self.old.inputs ≡ 2 }
        requires room { IsTrue (has_room self.old.c self.old.its_bit
            (put_replies self.old.its_bit replies.now self.old.inputs) replies.now) }
        ensures { self.new ≡ with_inputs self.old (put_replies self.old.its_bit replies.now self.old.inputs) }
    {
        for reply in replies {
            self.put(*reply);
        }
    }

    /// Appends a reply at its leader's input, where there must be room.
    fn put(&mut self, reply: Reply)
        requires { length (replies_at self.old.inputs (bit self.old.its_bit reply.leader)) < self.old.c }
        ensures { self.new ≡ with_inputs self.old (put_reply self.old.its_bit self.old.inputs reply) }
    {
        let inp = usize::from(bit(self.its_bit, reply.leader));
        self.inputs[inp].push_back(reply);
    }

    /// The first reply of an input's queue.
    pub fn reply_front(&self, inp: u8) -> Option<Reply>
        requires { inp < 2 }
        ensures { result ≡ slice_get (replies_at self.now.inputs inp) 0 }
    {
        self.inputs[usize::from(inp)].front().copied()
    }

    /// Takes the first reply of an input's queue.
    pub fn reply_take(&mut self, inp: u8) -> Option<Reply>
        requires { inp < 2 }
        ensures first { result ≡ slice_get (replies_at self.old.inputs inp) 0 }
        ensures after { self.new
            ≡ with_inputs self.old (slice_set self.old.inputs inp (drop 1 (replies_at self.old.inputs inp))) }
    {
        self.inputs[usize::from(inp)].pop_front()
    }

    /// Whether the switch has no request, no record and no reply.
    pub fn is_empty(&self) -> bool
        ensures { IsTrue result ↔ IsEmptySwitch self.now }
    {
        self.outputs[0].is_empty()
            && self.outputs[1].is_empty()
            && self.inputs[0].is_empty()
            && self.inputs[1].is_empty()
    }
}

/// The answer that reports these replies, of which the first is the leader's.
fn outcome(replies: &[Reply]) -> Answered
    ensures { (reply : Reply) (records : List Record) → replies.now ≡ answers records reply →
        result ≡ answered_for records }
{
    let seconds = match replies {
        [_, first, second, third, ..] => Seconds::Three(first.leader, second.leader, third.leader),
        [_, first, second] => Seconds::Two(first.leader, second.leader),
        [_, first] => Seconds::One(first.leader),
        _ => return Answered::One,
    };
    Answered::Many { seconds }
}

/// The number of these replies that are for an input.
fn count_for(its_bit: u8, inp: u8, replies: &[Reply]) -> usize
    requires { its_bit < 8 }
    ensures { result ≡ length (replies_for its_bit inp replies.now) }
{
    replies
        .iter()
        .filter(|reply| bit(its_bit, reply.leader) == inp)
        .count()
}
