//! Queues of numbers that are linked through one table.

ghost use Rattle.std.specs.Prelude.{◌≡◌, ◌↔◌, ◌<◌, ◌≤◌, ◌+◌, ℕ, suc, [], ◌∷◌, ◌++◌, drop, length, replicate, slice_get};
ghost use Rattle.std.specs.Prelude.{Some, IfOk, IsTrue};
ghost use Rattle.messages.specs.Places.{In};
ghost use Rattle.combining_switch.specs.Links.{AreApart, IsUnlinked, LinkLists, queue_at, with_queue};

use std::alloc::{AllocError, Global};
use std::marker::Model;

/// The ends of a queue.
#[derive(Clone, Copy, Debug, Drop)]
struct Ends {
    /// The first number, if there is one.
    first: u8,
    /// The last number, if there is one.
    last: u8,
    /// The number of numbers in the queue.
    count: u8,
}

/// Queues of numbers, seen as their lists. No number is in them twice.
#[derive(Drop)]
pub struct Links {
    /// For each number, the one after it in its queue, if there is one.
    next: Vec<u8>,
    queues: Vec<Ends>,
}

impl Model for Links {
    ghost use Rattle.combining_switch.specs.Links.{LinkLists};

    ghost Value = { LinkLists };

    ghost use Rattle.combining_switch.specs.Walks.{IsLinked, lists_of};

    ghost view = { λ l. lists_of l.next.items l.queues.items };

    ghost invariant = { λ l. IsLinked l.next.items l.queues.items };
}

impl Links {
    /// `queues` empty queues of numbers below `cells`.
    pub fn new(alloc: Global, cells: u8, queues: usize) -> Result<Self, AllocError>
        requires { cells ≤ 64 }
        ensures { IfOk result (λ l. l ≡ record { cells = cells; queues = replicate queues [] }) }
    {
        let free = Ends {
            first: 0,
            last: 0,
            count: 0,
        };
        let mut next = Vec::new(alloc);
        next.resize(usize::from(cells), 0)?;
        let mut ends = Vec::new(alloc);
        ends.resize(queues, free)?;
        Ok(Links { next, queues: ends })
    }

    /// A law: no number is in the queues twice.
    #[inline(always)]
    pub fn are_apart(&self)
        ensures { AreApart self.now }
    {
        let _ = &self.next;
    }

    /// Appends a number to a queue.
    pub fn push(&mut self, queue: usize, number: u8)
        requires queue { queue < length self.old.queues }
        requires number { number < self.old.cells }
        requires free { IsUnlinked self.old number }
        ensures { self.new ≡ with_queue self.old queue (queue_at self.old queue ++ number ∷ []) }
    {
        let ends = self.queues[queue];
        if ends.count == 0 {
            self.queues[queue] = Ends {
                first: number,
                last: number,
                count: 1,
            };
        } else {
            self.next[usize::from(ends.last)] = number;
            self.queues[queue] = Ends {
                first: ends.first,
                last: number,
                count: ends.count + 1,
            };
        }
    }

    /// Takes the first number of a queue.
    pub fn pop(&mut self, queue: usize) -> Option<u8>
        requires { queue < length self.old.queues }
        ensures first { result ≡ slice_get (queue_at self.old queue) 0 }
        ensures after { self.new ≡ with_queue self.old queue (drop 1 (queue_at self.old queue)) }
    {
        let ends = self.queues[queue];
        if ends.count == 0 {
            return None;
        }
        self.queues[queue] = Ends {
            first: self.next[usize::from(ends.first)],
            last: ends.last,
            count: ends.count - 1,
        };
        Some(ends.first)
    }

    /// The number of queues.
    fn queue_count(&self) -> usize
        ensures { result ≡ length self.now.queues }
    {
        self.queues.len()
    }

    /// The number of numbers in a queue.
    pub fn count(&self, queue: usize) -> u8
        requires { queue < length self.now.queues }
        ensures { result ≡ length (queue_at self.now queue) }
    {
        self.queues[queue].count
    }

    /// The first number of a queue.
    pub fn front(&self, queue: usize) -> Option<u8>
        requires { queue < length self.now.queues }
        ensures { result ≡ slice_get (queue_at self.now queue) 0 }
    {
        let ends = self.queues[queue];
        if ends.count == 0 {
            None
        } else {
            Some(ends.first)
        }
    }

    /// The number after the one at `place` of a queue.
    pub fn number_after(&self, queue: usize, place: usize, number: u8) -> Option<u8>
        requires queue { queue < length self.now.queues }
        requires there { slice_get (queue_at self.now queue) place ≡ Some number }
        ensures { result ≡ slice_get (queue_at self.now queue) (suc place) }
    {
        let ends = self.queues[queue];
        if place + 1 < usize::from(ends.count) {
            Some(self.next[usize::from(number)])
        } else {
            None
        }
    }

    /// The number at `place` of a queue.
    pub fn get(&self, queue: usize, place: usize) -> Option<u8>
        requires { queue < length self.now.queues }
        ensures { result ≡ slice_get (queue_at self.now queue) place }
    {
        let mut found = self.front(queue);
        for before in 0..place {
            found = self.number_after(queue, before, found?);
        }
        found
    }

    /// Whether a queue has this number.
    fn has(&self, queue: usize, number: u8) -> bool
        requires { queue < length self.now.queues }
        ensures { IsTrue result ↔ In number (queue_at self.now queue) }
    {
        for place in 0..usize::from(self.count(queue)) {
            if let Some(found) = self.get(queue, place) {
                if found == number {
                    return true;
                }
            }
        }
        false
    }

    /// Whether no queue has this number.
    pub fn is_unlinked(&self, number: u8) -> bool
        ensures { IsTrue result ↔ IsUnlinked self.now number }
    {
        for queue in 0..self.queue_count() {
            if self.has(queue, number) {
                return false;
            }
        }
        true
    }
}
