//! A plain network of lists, with which the network is compared. It makes the same moves, with no rings and no proof.
//! Its calls return None if a number names no place.

use messages::{DownMove, Record, Reply, Request, Seconds, UpMove};
use phi_algebra::{Phi, compose};
use std::alloc::{AllocError, Global};

/// Lists for each place. Those of a stage come after those of the stages before it.
#[derive(Drop)]
pub struct Plain {
    stages: usize,
    queue: usize,
    buffer: usize,
    most_marks: u8,
    alloc: Global,
    slots: Vec<Vec<Request>>,
    /// By the wires that go out.
    requests: Vec<Vec<Request>>,
    /// By the wires that go out.
    records: Vec<Vec<Record>>,
    /// By the numbers of the inputs, which are those of the shuffled wires.
    replies: Vec<Vec<Reply>>,
    module_slots: Vec<Vec<Reply>>,
}

impl Plain {
    pub fn new(alloc: Global, k: u8, c: u8, b: u8, r: u8) -> Result<Self, AllocError> {
        let stages = usize::from(k);
        let wires = 1_usize.wrapping_shl(u32::from(k));
        let all = stages.wrapping_mul(wires);
        let mut plain = Plain {
            stages,
            queue: usize::from(c),
            buffer: usize::from(b),
            most_marks: r,
            alloc,
            slots: Vec::new(alloc),
            requests: Vec::new(alloc),
            records: Vec::new(alloc),
            replies: Vec::new(alloc),
            module_slots: Vec::new(alloc),
        };
        for _ in 0..wires {
            plain.slots.push(Vec::new(alloc))?;
            plain.module_slots.push(Vec::new(alloc))?;
        }
        for _ in 0..all {
            plain.requests.push(Vec::new(alloc))?;
            plain.records.push(Vec::new(alloc))?;
            plain.replies.push(Vec::new(alloc))?;
        }
        Ok(plain)
    }

    fn wires(&self) -> usize {
        self.slots.len()
    }

    /// The index of a wire of a stage in the lists of all stages.
    fn place(&self, stage: usize, wire: usize) -> usize {
        stage.wrapping_mul(self.wires()).wrapping_add(wire)
    }

    /// The wire's number with its first bit moved to the end.
    fn shuffled(&self, wire: usize) -> usize {
        let twice = wire.wrapping_mul(2);
        if twice < self.wires() {
            twice
        } else {
            twice.wrapping_sub(self.wires()).wrapping_add(1)
        }
    }

    /// The number with its last bit replaced by the bit of `by` that the stage routes by.
    fn routed(&self, number: usize, stage: usize, by: usize) -> usize {
        let bit = self.stages.wrapping_sub(1).wrapping_sub(stage);
        let port = by.wrapping_shr((bit & 63) as u32) & 1;
        (number & 0xFE) | port
    }

    pub fn inject(&mut self, leader: u8, word: u32, phi: Phi) -> Option<()> {
        let request = Request {
            leader,
            word,
            phi,
            marks: 0,
        };
        self.slots.get_mut(usize::from(leader))?.push(request).ok()
    }

    /// The requests before a stage on a wire.
    fn requests_before(&mut self, stage: usize, wire: usize) -> Option<&mut Vec<Request>> {
        if stage == 0 {
            self.slots.get_mut(wire)
        } else {
            let place = self.place(stage.wrapping_sub(1), wire);
            self.requests.get_mut(place)
        }
    }

    /// The replies before a stage on a wire.
    fn replies_before(&mut self, stage: usize, wire: usize) -> Option<&mut Vec<Reply>> {
        if stage == self.stages {
            self.module_slots.get_mut(wire)
        } else {
            let place = self.place(stage, self.shuffled(wire));
            self.replies.get_mut(place)
        }
    }

    /// Returns whether there is a request before a stage on a wire, or at a module.
    pub fn has_request(&mut self, stage: usize, wire: usize) -> Option<bool> {
        Some(!self.requests_before(stage, wire)?.is_empty())
    }

    /// Returns whether there is a reply before a stage on a wire, or at a module.
    pub fn has_reply(&mut self, stage: usize, wire: usize) -> Option<bool> {
        Some(!self.replies_before(stage, wire)?.is_empty())
    }

    pub fn up(&mut self, stage: usize, wire: usize) -> Option<UpMove> {
        let Some(request) = self.requests_before(stage, wire)?.first().copied() else {
            return Some(UpMove::Stalled);
        };
        let to_module = request.word as usize % self.wires().max(1);
        let out = self.place(stage, self.routed(self.shuffled(wire), stage, to_module));
        let outcome = self.offered(out, request)?;
        if outcome != UpMove::Stalled {
            let source = self.requests_before(stage, wire)?;
            if !source.is_empty() {
                source.remove(0);
            }
        }
        Some(outcome)
    }

    fn offered(&mut self, out: usize, request: Request) -> Option<UpMove> {
        let records = self.records.get_mut(out)?;
        let queue = self.requests.get_mut(out)?;
        for entry in queue.iter_mut() {
            let joint = compose(&entry.phi, &request.phi);
            let may = records.len() < self.buffer && entry.marks < self.most_marks;
            if may && entry.word == request.word {
                if let Some(joint) = joint {
                    let record = Record {
                        leader: entry.leader,
                        phi: entry.phi,
                        second: request.leader,
                    };
                    records.push(record).ok()?;
                    entry.phi = joint;
                    entry.marks = entry.marks.wrapping_add(1);
                    return Some(UpMove::Combined {
                        first: entry.leader,
                        second: request.leader,
                    });
                }
            }
        }
        if queue.len() < self.queue {
            queue
                .push(Request {
                    marks: 0,
                    ..request
                })
                .ok()?;
            Some(UpMove::Moved)
        } else {
            Some(UpMove::Stalled)
        }
    }

    pub fn down(&mut self, stage: usize, wire: usize) -> Option<DownMove> {
        let after = stage.wrapping_add(1);
        let Some(reply) = self.replies_before(after, wire)?.first().copied() else {
            return Some(DownMove::Stalled);
        };
        let outcome = self.answered(stage, wire, reply)?;
        if outcome != DownMove::Stalled {
            let source = self.replies_before(after, wire)?;
            if !source.is_empty() {
                source.remove(0);
            }
        }
        Some(outcome)
    }

    fn answered(&mut self, stage: usize, wire: usize, reply: Reply) -> Option<DownMove> {
        let out = self.place(stage, wire);
        let mut replies = Vec::new(self.alloc);
        replies.push(reply).ok()?;
        for record in self.records.get(out)?.iter() {
            if record.leader == reply.leader {
                let value = record.phi.apply(reply.value);
                let leader = record.second;
                replies.push(Reply { leader, value }).ok()?;
            }
        }
        if !self.have_room(stage, wire, replies.as_slice())? {
            return Some(DownMove::Stalled);
        }
        for reply in replies.iter() {
            let place = self.input(stage, wire, reply);
            self.replies.get_mut(place)?.push(*reply).ok()?;
        }
        self.records
            .get_mut(out)?
            .retain(|record| record.leader != reply.leader);
        Some(answer_of(replies.as_slice()))
    }

    /// The input of a stage to which a reply from a wire goes.
    fn input(&self, stage: usize, wire: usize, reply: &Reply) -> usize {
        self.place(stage, self.routed(wire, stage, usize::from(reply.leader)))
    }

    /// Returns whether the queues at the inputs have room for all these replies.
    fn have_room(&self, stage: usize, wire: usize, replies: &[Reply]) -> Option<bool> {
        for reply in replies {
            let place = self.input(stage, wire, reply);
            let needed = replies
                .iter()
                .filter(|other| self.input(stage, wire, other) == place)
                .count();
            if self.queue.wrapping_sub(self.replies.get(place)?.len()) < needed {
                return Some(false);
            }
        }
        Some(true)
    }

    /// The first request at a module, if there is one.
    pub fn module_front(&mut self, m: usize) -> Option<Option<Request>> {
        let stages = self.stages;
        Some(self.requests_before(stages, m)?.first().copied())
    }

    /// Takes the first request at a module.
    pub fn module_take(&mut self, m: usize) -> Option<Request> {
        let requests = self.requests_before(self.stages, m)?;
        let request = requests.first().copied()?;
        requests.remove(0);
        Some(request)
    }

    pub fn module_reply(&mut self, m: usize, reply: Reply) -> Option<()> {
        self.module_slots.get_mut(m)?.push(reply).ok()
    }

    /// The first reply on a processor's wire, if there is one.
    pub fn port_reply(&mut self, p: usize) -> Option<Option<Reply>> {
        Some(self.replies_before(0, p)?.first().copied())
    }

    /// Takes the first reply on a processor's wire.
    pub fn port_take(&mut self, p: usize) -> Option<Reply> {
        let replies = self.replies_before(0, p)?;
        let reply = replies.first().copied()?;
        replies.remove(0);
        Some(reply)
    }
}

/// The result of a move that makes these replies.
fn answer_of(replies: &[Reply]) -> DownMove {
    let to = match replies {
        [_, first] => Seconds::One(first.leader),
        [_, first, second] => Seconds::Two(first.leader, second.leader),
        [_, first, second, third] => Seconds::Three(first.leader, second.leader, third.leader),
        _ => return DownMove::Moved,
    };
    DownMove::Answered { to }
}
