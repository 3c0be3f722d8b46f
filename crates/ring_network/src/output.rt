//! One output of a switch.

ghost use Rattle.std.specs.Prelude.{◌≡◌, ◌↔◌, ◌++◌, ◌<◌, ◌≤◌, drop, length, slice_get, slice_index_or, slice_set, IfOk};
ghost use Rattle.std.specs.Prelude.{IfSome, IsTrue, OnSome, option_map};
ghost use Rattle.circular_buffer.specs.Buffer.{buffer};
ghost use Rattle.messages.specs.Queues.{answers, combination, combined_in, joint, records_of, records_but};
ghost use Rattle.combining_switch.specs.Outputs.{accepted, combined, queued};
ghost use Rattle.ring_network.specs.Outputs.{IsEmptyOutput, empty_output};
ghost use Rattle.ring_network.specs.Partners.{IsPartner, partnership};

use crate::replies::{Replies, replies_for};
use circular_buffer::HeapCircularBuffer;
use combining_switch::Accepted;
use messages::{Record, Reply, Request};
use phi_algebra::{Phi, compose};
use std::alloc::{AllocError, Global};
use std::marker::Model;
use wait_buffers::WaitBuffer;

/// An output: a queue of requests, and the records of what was combined there.
#[derive(Drop)]
pub struct Output {
    queue: HeapCircularBuffer<Request>,
    /// How often an entry of the queue may be combined.
    most_marks: u8,
    waiting: WaitBuffer,
}

impl Model for Output {
    ghost use Rattle.std.specs.Prelude.{◌≤◌};
    ghost use Rattle.combining_switch.specs.Outputs.{OutputLists};

    ghost Value = { OutputLists };

    ghost view = { λ o. record {
      c = o.queue.capacity;
      b = o.waiting.limit;
      r = o.most_marks;
      requests = o.queue.items;
      records = o.waiting.records;
    } };

    ghost invariant = { λ o. o.most_marks ≤ 3 };
}

/// An entry of a queue with which a request combines.
#[derive(Clone, Copy, Drop)]
struct Partner {
    place: usize,
    entry: Request,
    joint: Phi,
}

impl Output {
    /// An output with an empty queue of up to `c` requests, each combined up to `r` times, and an empty wait buffer of
    /// up to `b` records.
    pub fn new(alloc: Global, c: u8, b: u8, r: u8) -> Result<Self, AllocError>
        requires records { b ≤ 16 }
        requires combinations { r ≤ 3 }
        ensures { IfOk result (λ o. o ≡ empty_output c b r) }
    {
        Ok(Output {
            queue: HeapCircularBuffer::with_capacity(alloc, usize::from(c))?,
            most_marks: r,
            waiting: WaitBuffer::new(b),
        })
    }

    /// Whether the output has neither requests nor records.
    pub fn is_empty(&self) -> bool
        ensures { IsTrue result ↔ IsEmptyOutput self.now }
    {
        self.queue.is_empty() && self.waiting.records().is_empty()
    }

    /// Combines or queues a request, or refuses it.
    pub fn accept(&mut self, request: Request) -> Accepted
        ensures answer { result ≡ (accepted self.old request).0 }
        ensures after { self.new ≡ (accepted self.old request).1 }
    {
        match self.partner(&request) {
            Some(partner) => self.combine(partner, &request),
            None => self.enqueue(request),
        }
    }

    /// The entry with which a request is combined, if a record is free for it.
    fn partner(&self, request: &Request) -> Option<Partner>
        ensures first { option_map (partnership self.now.requests request.now) result
            ≡ combination self.now.b self.now.r request.now self.now.requests self.now.records }
        ensures partner { IfSome result (IsPartner self.now.r self.now.requests) }
        ensures room { OnSome result (length self.now.records < self.now.b) }
    {
        if self.waiting.has_room() {
            first_partner(&self.queue, self.most_marks, request)
        } else {
            None
        }
    }

    /// Appends a request to the queue, if there is room.
    fn enqueue(&mut self, request: Request) -> Accepted
        ensures answer { result ≡ (queued self.old request).0 }
        ensures after { self.new ≡ (queued self.old request).1 }
    {
        let unmarked = Request {
            marks: 0,
            ..request
        };
        match self.queue.try_push_back(unmarked) {
            Ok(()) => Accepted::Queued,
            Err(_) => Accepted::Full,
        }
    }

    /// Puts the entry for both requests into its partner's place, and adds the record.
    fn combine(&mut self, partner: Partner, request: &Request) -> Accepted
        requires partner { IsPartner self.old.r self.old.requests partner }
        requires room { length self.old.records < self.old.b }
        ensures answer { result ≡ (combined self.old (partnership self.old.requests request.now partner)).0 }
        ensures after { self.new ≡ (combined self.old (partnership self.old.requests request.now partner)).1 }
    {
        let Partner {
            place,
            entry,
            joint,
        } = partner;
        if let Some(slot) = self.queue.get_mut(place) {
            *slot = Request {
                phi: joint,
                marks: entry.marks + 1,
                ..entry
            };
        }
        self.waiting.push(Record {
            leader: entry.leader,
            phi: entry.phi,
            second: request.leader,
        });
        Accepted::Combined {
            first: entry.leader,
        }
    }

    /// The requests of the queue, in two parts.
    pub fn requests(&self) -> (&[Request], &[Request])
        ensures { result.0.now ++ result.1.now ≡ self.now.requests }
    {
        self.queue.as_slices()
    }

    /// The number of requests in the queue.
    pub fn request_count(&self) -> usize
        ensures { result ≡ length self.now.requests }
    {
        self.queue.len()
    }

    /// The records of the wait buffer.
    pub fn records(&self) -> &[Record]
        ensures { result.now ≡ self.now.records }
    {
        self.waiting.records()
    }

    /// The first request of the queue.
    pub fn front(&self) -> Option<Request>
        ensures { result ≡ slice_get self.now.requests 0 }
    {
        self.queue.front().copied()
    }

    /// Takes the first request of the queue.
    pub fn take(&mut self) -> Option<Request>
        ensures first { result ≡ slice_get self.old.requests 0 }
        ensures after { self.new
            ≡ record {
              c = self.old.c;
              b = self.old.b;
              r = self.old.r;
              requests = drop 1 self.old.requests;
              records = self.old.records;
            } }
    {
        self.queue.pop_front()
    }

    /// The replies that a reply gives when it comes back.
    pub fn answers(&self, reply: Reply) -> Replies
        ensures { result.items ≡ answers (records_of reply.leader self.now.records) reply }
    {
        replies_for(self.waiting.records(), reply)
    }

    /// Drops all records of a leader.
    pub fn forget(&mut self, leader: u8)
        ensures { self.new
            ≡ record {
              c = self.old.c;
              b = self.old.b;
              r = self.old.r;
              requests = self.old.requests;
              records = records_but leader self.old.records;
            } }
    {
        self.waiting.forget(leader);
    }
}

/// The first entry, from the front, with which a request combines.
fn first_partner(
    queue: &HeapCircularBuffer<Request>,
    most_marks: u8,
    request: &Request,
) -> Option<Partner>
    ensures first { option_map (partnership queue.now.items request.now) result
        ≡ combined_in most_marks request.now queue.now.items }
    ensures partner { IfSome result (IsPartner most_marks queue.now.items) }
{
    for place in 0..queue.len() {
        if let Some(entry) = queue.get(place).copied() {
            if let Some(joint) = joint(most_marks, &entry, request) {
                return Some(Partner {
                    place,
                    entry,
                    joint,
                });
            }
        }
    }
    None
}

/// The function of an entry and a request together, if they combine. The entry must have been combined fewer than
/// `most_marks` times.
#[tactic(auto, unfolding(messages::specs::Queues::joint))]
fn joint(most_marks: u8, entry: &Request, request: &Request) -> Option<Phi>
    ensures { result ≡ joint most_marks request.now entry.now }
{
    if entry.marks < most_marks && entry.word == request.word {
        compose(&entry.phi, &request.phi)
    } else {
        None
    }
}
