//! The pool of a network's cells.

ghost use Rattle.std.specs.Prelude.{◌≡◌, ◌↔◌, ◌<◌, ◌≤◌, suc, [], ◌∷◌, ◌++◌, drop, length, slice_get, slice_set};
ghost use Rattle.std.specs.Prelude.{option_map, Some, IfOk, IfSome, IsTrue};
ghost use Rattle.combining_switch.specs.Pools.{IsFree, PoolLists, empty_pool, leader_of_request, replies_at};
ghost use Rattle.combining_switch.specs.Pools.{requests_at, with_replies, with_requests};
ghost use Rattle.combining_switch.specs.Cells.{reply_in, request_in};

use crate::links::Links;
use messages::{Reply, Request};
use phi_algebra::Phi;
use std::alloc::{AllocError, Global};
use std::marker::Model;

/// The most cells that a pool may have.
pub const MAX_CELLS: u8 = 64;

/// A message without its leader, which is the number of the cell.
#[derive(Clone, Copy, Debug, Drop)]
struct Cell {
    /// The number of a request's word.
    word: u32,
    /// The function that changes that word.
    phi: Phi,
    /// How often a request was combined in its queue.
    marks: u8,
    /// The value of a reply.
    value: u32,
}

/// A cell for each processor, and queues of requests and of replies in these cells, seen as the lists of the queues.
/// Queues of both kinds are numbered from 0.
#[derive(Drop)]
pub struct Pool {
    cells: Vec<Cell>,
    links: Links,
    /// How many of the links' queues are for requests. They come first.
    request_queues: usize,
}

impl Model for Pool {
    ghost use Rattle.combining_switch.specs.Pools.{PoolLists};

    ghost Value = { PoolLists };

    ghost use Rattle.combining_switch.specs.Cells.{IsPool, pool_lists};

    ghost view = { λ p. pool_lists p.cells.items p.request_queues p.links };

    ghost invariant = { λ p. IsPool p.cells.items p.request_queues p.links };
}

impl Pool {
    /// A pool of cells for this many processors, with empty queues for requests and for replies.
    ///
    /// # Errors
    ///
    /// `AllocError` if there is no memory for it.
    pub fn new(alloc: Global, cells: u8, requests: u16, replies: u16) -> Result<Self, AllocError>
        requires { cells ≤ 64 }
        ensures { IfOk result (λ l. l ≡ empty_pool cells requests replies) }
    {
        let free = Cell {
            word: 0,
            phi: Phi::identity(),
            marks: 0,
            value: 0,
        };
        let mut all = Vec::new(alloc);
        all.resize(usize::from(cells), free)?;
        let queues = usize::from(requests) + usize::from(replies);
        Ok(Pool {
            cells: all,
            links: Links::new(alloc, cells, queues)?,
            request_queues: usize::from(requests),
        })
    }

    /// Appends a request to a queue. No queue may have a message that its leader leads.
    pub fn push_request(&mut self, queue: usize, request: Request)
        requires queue { queue < length self.old.requests }
        requires cell { request.leader < self.old.cells }
        requires free { IsFree self.old request.leader }
        ensures { self.new ≡ with_requests self.old queue (requests_at self.old queue ++ request ∷ []) }
    {
        self.cells[usize::from(request.leader)] = cell_of(&request);
        self.links.push(queue, request.leader);
    }

    /// Appends a reply to a queue. No queue may have a message that its leader leads.
    pub fn push_reply(&mut self, queue: usize, reply: Reply)
        requires queue { queue < length self.old.replies }
        requires cell { reply.leader < self.old.cells }
        requires free { IsFree self.old reply.leader }
        ensures { self.new ≡ with_replies self.old queue (replies_at self.old queue ++ reply ∷ []) }
    {
        self.cells[usize::from(reply.leader)].value = reply.value;
        self.links.push(self.request_queues + queue, reply.leader);
    }

    /// Takes the first request of a queue. Its cell is then free.
    pub fn pop_request(&mut self, queue: usize) -> Option<Request>
        requires { queue < length self.old.requests }
        ensures first { result ≡ slice_get (requests_at self.old queue) 0 }
        ensures after { self.new ≡ with_requests self.old queue (drop 1 (requests_at self.old queue)) }
        ensures cell { IfSome result (λ x. x.leader < self.old.cells) }
        ensures freed { IfSome result (λ x. IsFree self.new x.leader) }
    {
        self.links.are_apart();
        let leader = self.links.pop(queue)?;
        Some(request_in(&self.cells, leader))
    }

    /// Takes the first reply of a queue. Its cell is then free.
    pub fn pop_reply(&mut self, queue: usize) -> Option<Reply>
        requires { queue < length self.old.replies }
        ensures first { result ≡ slice_get (replies_at self.old queue) 0 }
        ensures after { self.new ≡ with_replies self.old queue (drop 1 (replies_at self.old queue)) }
        ensures cell { IfSome result (λ x. x.leader < self.old.cells) }
        ensures freed { IfSome result (λ x. IsFree self.new x.leader) }
    {
        self.links.are_apart();
        let leader = self.links.pop(self.request_queues + queue)?;
        Some(reply_in(&self.cells, leader))
    }

    /// Replaces the request at `place` of a queue by one with the same leader.
    pub fn replace(&mut self, queue: usize, place: usize, request: Request)
        requires queue { queue < length self.old.requests }
        requires there { option_map leader_of_request (slice_get (requests_at self.old queue) place)
            ≡ Some request.leader }
        ensures { self.new ≡ with_requests self.old queue (slice_set (requests_at self.old queue) place request) }
    {
        self.links.are_apart();
        self.cells[usize::from(request.leader)] = cell_of(&request);
    }

    /// The number of requests in a queue.
    pub fn request_count(&self, queue: usize) -> u8
        requires { queue < length self.now.requests }
        ensures { result ≡ length (requests_at self.now queue) }
    {
        self.links.count(queue)
    }

    /// The number of replies in a queue.
    pub fn reply_count(&self, queue: usize) -> u8
        requires { queue < length self.now.replies }
        ensures { result ≡ length (replies_at self.now queue) }
    {
        self.links.count(self.request_queues + queue)
    }

    /// The first request of a queue.
    pub fn front_request(&self, queue: usize) -> Option<Request>
        requires { queue < length self.now.requests }
        ensures { result ≡ slice_get (requests_at self.now queue) 0 }
    {
        self.links.are_apart();
        let leader = self.links.front(queue)?;
        Some(request_in(&self.cells, leader))
    }

    /// The first reply of a queue.
    pub fn front_reply(&self, queue: usize) -> Option<Reply>
        requires { queue < length self.now.replies }
        ensures { result ≡ slice_get (replies_at self.now queue) 0 }
    {
        self.links.are_apart();
        let leader = self.links.front(self.request_queues + queue)?;
        Some(reply_in(&self.cells, leader))
    }

    /// The request after the one at `place` of a queue, which has this leader.
    pub fn request_after(&self, queue: usize, place: usize, leader: u8) -> Option<Request>
        requires queue { queue < length self.now.requests }
        requires there { option_map leader_of_request (slice_get (requests_at self.now queue) place) ≡ Some leader }
        ensures { result ≡ slice_get (requests_at self.now queue) (suc place) }
    {
        self.links.are_apart();
        let next = self.links.number_after(queue, place, leader)?;
        Some(request_in(&self.cells, next))
    }

    /// The request at `place` of a queue, found by a walk from the first.
    pub fn request(&self, queue: usize, place: usize) -> Option<Request>
        requires { queue < length self.now.requests }
        ensures { result ≡ slice_get (requests_at self.now queue) place }
    {
        self.links.are_apart();
        let leader = self.links.get(queue, place)?;
        Some(request_in(&self.cells, leader))
    }

    /// The reply at `place` of a queue, found by a walk from the first.
    pub fn reply(&self, queue: usize, place: usize) -> Option<Reply>
        requires { queue < length self.now.replies }
        ensures { result ≡ slice_get (replies_at self.now queue) place }
    {
        self.links.are_apart();
        let leader = self.links.get(self.request_queues + queue, place)?;
        Some(reply_in(&self.cells, leader))
    }

    /// Whether no queue has a message that the processor leads. It looks through all queues.
    pub fn is_free(&self, leader: u8) -> bool
        ensures { IsTrue result ↔ IsFree self.now leader }
    {
        self.links.is_unlinked(leader)
    }
}

/// The cell for a request.
fn cell_of(request: &Request) -> Cell
    ensures { result ≡ record { word = request.now.word; phi = request.now.phi; marks = request.now.marks; value = 0 } }
{
    Cell {
        word: request.word,
        phi: request.phi,
        marks: request.marks,
        value: 0,
    }
}

/// The request that the cell of a leader holds.
#[tactic(auto, unfolding(crate::specs::Cells::request_in))]
fn request_in(cells: &[Cell], leader: u8) -> Request
    requires { leader < length cells.now }
    ensures { result ≡ request_in cells.now leader }
{
    let cell = cells[usize::from(leader)];
    Request {
        leader,
        word: cell.word,
        phi: cell.phi,
        marks: cell.marks,
    }
}

/// The reply that the cell of a leader holds.
#[tactic(auto, unfolding(crate::specs::Cells::reply_in))]
fn reply_in(cells: &[Cell], leader: u8) -> Reply
    requires { leader < length cells.now }
    ensures { result ≡ reply_in cells.now leader }
{
    Reply {
        leader,
        value: cells[usize::from(leader)].value,
    }
}
