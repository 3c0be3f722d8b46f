//! Wait buffers.

ghost use Rattle.std.specs.Prelude.{◌≡◌, ◌<◌, ◌≤◌, [], ◌∷◌, ◌++◌, length, nat_lt};
ghost use Rattle.messages.specs.Queues.{records_but};
ghost use Rattle.wait_buffers.specs.Waiting.{waiting};

use arrayvec::ArrayVec;
use messages::Record;
use std::marker::Model;

/// The most records that a wait buffer may have.
pub const MAX_RECORDS: u8 = 16;

/// The records of one output of a switch, in the order of their combinations.
#[derive(Drop)]
pub struct WaitBuffer {
    records: ArrayVec<Record, 16>,
    limit: u8,
}

impl Model for WaitBuffer {
    ghost use Rattle.std.specs.Prelude.{◌≤◌, length};
    ghost use Rattle.wait_buffers.specs.Waiting.{Waiting, waiting};

    ghost Value = { Waiting };

    ghost view = { λ w. waiting w.limit w.records.items };

    ghost invariant = { λ w. (length w.records.items ≤ w.limit) × (w.limit ≤ 16) };
}

impl WaitBuffer {
    /// An empty buffer for up to `limit` records, at most [`MAX_RECORDS`].
    pub fn new(limit: u8) -> Self
        requires { limit ≤ 16 }
        ensures { result ≡ waiting limit [] }
    {
        WaitBuffer {
            records: ArrayVec::new(),
            limit,
        }
    }

    /// The records, in the order of their combinations.
    pub fn records(&self) -> &[Record]
        ensures records { result.now ≡ self.now.records }
        ensures few { length result.now ≤ 16 }
    {
        self.records.as_slice()
    }

    /// Whether one more record fits.
    pub fn has_room(&self) -> bool
        ensures { result ≡ nat_lt (length self.now.records) self.now.limit }
    {
        self.records.len() < usize::from(self.limit)
    }

    /// Adds the record of a combination, for which there must be room.
    pub fn push(&mut self, made: Record)
        requires { length self.old.records < self.old.limit }
        ensures { self.new ≡ waiting self.old.limit (self.old.records ++ made ∷ []) }
    {
        // The proof needs this field's type to be named.
        let _phi = made.phi;
        self.records.push(made);
    }

    /// Drops all records of a leader.
    pub fn forget(&mut self, leader: u8)
        ensures { self.new ≡ waiting self.old.limit (records_but leader self.old.records) }
    {
        self.records.retain(|record| record.leader != leader);
    }
}
