//! One output of a switch.

ghost use Rattle.std.specs.Prelude.{◌≡◌, ◌↔◌, ◌+◌, ◌<◌, ◌≤◌, [], drop, length, slice_get, slice_index_or, IfSome};
ghost use Rattle.std.specs.Prelude.{IsTrue, OnSome, option_map};
ghost use Rattle.messages.specs.Queues.{combination, combined_in, joint, records_but};
ghost use Rattle.combining_switch.specs.Pools.{IsFree, requests_at, with_requests};
ghost use Rattle.combining_switch.specs.declared.answers.Accepted.TheVariants.{Full};
ghost use Rattle.combining_switch.specs.Outputs.{accepted, combined, output_in, output_with, queued};
ghost use Rattle.combining_switch.specs.Partners.{IsPartner, partnership};

use crate::answers::Accepted;
use crate::pool::Pool;
use messages::{Record, Request};
use phi_algebra::{Phi, compose};
use std::marker::Model;
use wait_buffers::WaitBuffer;

/// An output: the number of its queue of requests in the pool, and the records of what was combined there.
#[derive(Drop)]
pub struct Output {
    queue: u16,
    capacity: u8,
    /// How often an entry of the queue may be combined.
    most_marks: u8,
    waiting: WaitBuffer,
}

impl Model for Output {
    ghost use Rattle.std.specs.Prelude.{◌≤◌};
    ghost use Rattle.combining_switch.specs.Outputs.{OutputState};

    ghost Value = { OutputState };

    ghost view = { λ o. record {
      c = o.capacity;
      b = o.waiting.limit;
      r = o.most_marks;
      queue = o.queue;
      records = o.waiting.records;
    } };

    ghost invariant = { λ o. o.most_marks ≤ 3 };
}

/// An entry of a queue with which a request combines.
#[derive(Clone, Copy, Drop)]
struct Partner {
    place: usize,
    entry: Request,
    joint: Phi,
}

impl Output {
    /// An output whose queue has this number in the pool. The queue holds up to `c` requests, each combined up to `r`
    /// times. The wait buffer is empty and holds up to `b` records.
    pub fn new(c: u8, b: u8, r: u8, queue: u16) -> Self
        requires records { b ≤ 16 }
        requires combinations { r ≤ 3 }
        ensures { result ≡ record { c = c; b = b; r = r; queue = queue; records = [] } }
    {
        Output {
            queue,
            capacity: c,
            most_marks: r,
            waiting: WaitBuffer::new(b),
        }
    }

    /// Whether a request would be combined or queued.
    pub fn would_take(&self, pool: &Pool, request: &Request) -> bool
        requires { self.now.queue < length pool.now.requests }
        ensures { IsTrue result ↔ ((accepted (output_in pool.now self.now) request.now).0 ≡ Full → ⊥) }
    {
        self.has_place(pool) || self.partner(pool, request).is_some()
    }

    /// Whether one more request can be queued.
    fn has_place(&self, pool: &Pool) -> bool
        requires { self.now.queue < length pool.now.requests }
        ensures { IsTrue result ↔ length (requests_at pool.now self.now.queue) < self.now.c }
    {
        pool.request_count(usize::from(self.queue)) < self.capacity
    }

    /// Combines or queues a request, or refuses it.
    pub fn accept(&mut self, pool: &mut Pool, request: Request) -> Accepted
        requires queue { self.old.queue < length pool.old.requests }
        requires cell { request.leader < pool.old.cells }
        requires free { IsFree pool.old request.leader }
        ensures answer { result ≡ (accepted (output_in pool.old self.old) request).0 }
        ensures records { self.new ≡ output_with self.old (accepted (output_in pool.old self.old) request).1.records }
        ensures requests { pool.new
            ≡ with_requests pool.old self.old.queue (accepted (output_in pool.old self.old) request).1.requests }
    {
        match self.partner(pool, &request) {
            Some(partner) => self.combine(pool, partner, &request),
            None => self.enqueue(pool, request),
        }
    }

    /// The entry with which a request is combined, if a record is free for it.
    fn partner(&self, pool: &Pool, request: &Request) -> Option<Partner>
        requires { self.now.queue < length pool.now.requests }
        ensures first { option_map (partnership (requests_at pool.now self.now.queue) request.now) result
            ≡ combination self.now.b self.now.r request.now (requests_at pool.now self.now.queue) self.now.records }
        ensures partner { IfSome result (IsPartner self.now.r (requests_at pool.now self.now.queue)) }
        ensures room { OnSome result (length self.now.records < self.now.b) }
    {
        if self.waiting.has_room() {
            first_partner(pool, usize::from(self.queue), self.most_marks, request)
        } else {
            None
        }
    }

    /// Appends a request to the queue, if there is room.
    fn enqueue(&self, pool: &mut Pool, request: Request) -> Accepted
        requires queue { self.now.queue < length pool.old.requests }
        requires cell { request.leader < pool.old.cells }
        requires free { IsFree pool.old request.leader }
        ensures answer { result ≡ (queued (output_in pool.old self.now) request).0 }
        ensures records { (queued (output_in pool.old self.now) request).1.records ≡ self.now.records }
        ensures requests { pool.new
            ≡ with_requests pool.old self.now.queue (queued (output_in pool.old self.now) request).1.requests }
    {
        if !self.has_place(pool) {
            return Accepted::Full;
        }
        let unmarked = Request {
            marks: 0,
            ..request
        };
        pool.push_request(usize::from(self.queue), unmarked);
        Accepted::Queued
    }

    /// Puts the entry for both requests into its partner's place, and adds the record.
    fn combine(&mut self, pool: &mut Pool, partner: Partner, request: &Request) -> Accepted
        requires queue { self.old.queue < length pool.old.requests }
        requires partner { IsPartner self.old.r (requests_at pool.old self.old.queue) partner }
        requires room { length self.old.records < self.old.b }
        ensures answer { result
            ≡ (combined (output_in pool.old self.old) (partnership
            (requests_at pool.old self.old.queue) request.now partner)).0 }
        ensures records { self.new ≡ output_with self.old
            (combined (output_in pool.old self.old) (partnership (requests_at pool.old self.old.queue) request.now
            partner)).1.records }
        ensures requests { pool.new ≡ with_requests pool.old self.old.queue
            (combined (output_in pool.old self.old) (partnership (requests_at pool.old self.old.queue) request.now
            partner)).1.requests }
    {
        let Partner {
            place,
            entry,
            joint,
        } = partner;
        let queue = usize::from(self.queue);
        let both = Request {
            phi: joint,
            marks: entry.marks + 1,
            ..entry
        };
        pool.replace(queue, place, both);
        self.waiting.push(Record {
            leader: entry.leader,
            phi: entry.phi,
            second: request.leader,
        });
        Accepted::Combined {
            first: entry.leader,
        }
    }

    /// The records of the wait buffer.
    pub fn records(&self) -> &[Record]
        ensures records { result.now ≡ self.now.records }
        ensures few { length result.now ≤ 16 }
    {
        self.waiting.records()
    }

    /// The first request of the queue.
    pub fn front(&self, pool: &Pool) -> Option<Request>
        requires { self.now.queue < length pool.now.requests }
        ensures { result ≡ slice_get (requests_at pool.now self.now.queue) 0 }
    {
        pool.front_request(usize::from(self.queue))
    }

    /// Takes the first request of the queue.
    pub fn take(&self, pool: &mut Pool) -> Option<Request>
        requires { self.now.queue < length pool.old.requests }
        ensures first { result ≡ slice_get (requests_at pool.old self.now.queue) 0 }
        ensures after { pool.new
            ≡ with_requests pool.old self.now.queue (drop 1 (requests_at pool.old self.now.queue)) }
    {
        pool.pop_request(usize::from(self.queue))
    }

    /// Drops all records of a leader.
    pub fn forget(&mut self, leader: u8)
        ensures { self.new ≡ output_with self.old (records_but leader self.old.records) }
    {
        self.waiting.forget(leader);
    }
}

/// The first entry of a queue, from the front, with which a request combines.
fn first_partner(pool: &Pool, queue: usize, most_marks: u8, request: &Request) -> Option<Partner>
    requires { queue < length pool.now.requests }
    ensures first { option_map (partnership (requests_at pool.now queue) request.now) result
        ≡ combined_in most_marks request.now (requests_at pool.now queue) }
    ensures partner { IfSome result (IsPartner most_marks (requests_at pool.now queue)) }
{
    let mut next = pool.front_request(queue);
    for place in 0..usize::from(pool.request_count(queue)) {
        let entry = next?;
        if let Some(joint) = joint(most_marks, &entry, request) {
            return Some(Partner {
                place,
                entry,
                joint,
            });
        }
        next = pool.request_after(queue, place, entry.leader);
    }
    None
}

/// The function of an entry and a request together, if they combine. The entry must have been combined fewer than
/// `most_marks` times.
#[tactic(auto, unfolding(messages::specs::Queues::joint))]
fn joint(most_marks: u8, entry: &Request, request: &Request) -> Option<Phi>
    ensures { result ≡ joint most_marks request.now entry.now }
{
    if entry.marks < most_marks && entry.word == request.word {
        compose(&entry.phi, &request.phi)
    } else {
        None
    }
}
