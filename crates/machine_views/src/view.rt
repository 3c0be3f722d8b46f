//! A machine as data.

ghost use Rattle.std.specs.Prelude.{◌≡◌};
ghost use Rattle.std.specs.Option.{option_copied};
ghost use Rattle.machine_views.specs.Places.{place_at};

use crate::row::Row;
use flat_machine::{Config, Status};
use messages::{Record, Reply, Request};

/// All that can be drawn of a machine: what its processors do, and what each place of its network holds.
#[derive(Debug, Drop)]
pub struct MachineView {
    /// The machine's size. Its `2^k` processors, wires and modules are numbered from 0, and so are its `k` stages.
    pub config: Config,
    /// How many steps the machine has taken.
    pub steps: usize,
    /// The processors, by their numbers.
    pub processors: Row<ProcessorView>,
    /// The places of the network, by depth from 0 to `k`, and by wire at each depth. A depth is the number of stages
    /// between a place and the processors: the processors are at depth 0, and the modules at depth `k`.
    pub places: Row<Row<PlaceView>>,
}

/// What a processor does.
#[derive(Clone, Copy, Debug, PartialEq, Eq, Drop)]
pub struct ProcessorView {
    /// The address of its next instruction; while its reference is open, of the instruction that sent the request.
    pub pc: u32,
    /// Whether it runs, or how it stopped.
    pub status: Status,
    /// Whether it has sent a request and not yet taken the reply.
    pub is_open: bool,
    /// The shared word of its open reference. None if no reference is open.
    pub word: Option<SharedWord>,
}

/// A shared word.
#[derive(Clone, Copy, Debug, PartialEq, Eq, Drop)]
pub struct SharedWord {
    /// Its number, from 0.
    pub number: u32,
    /// The value that its module holds.
    pub value: u32,
}

/// What a place holds, at a depth and on a wire.
#[derive(Debug, Drop)]
pub struct PlaceView {
    /// The requests, the first to go on first. At depth 0 they are in the slot of the processor with the wire's
    /// number. At a greater depth they are in the output queue of the switch before, and at depth `k` the module with
    /// the wire's number serves them.
    pub requests: Row<RequestView>,
    /// The wait buffer of that output, the oldest record first. At depth 0 it is empty.
    pub records: Row<Record>,
    /// The replies, the first to go on first. At depth `k` they are in the slot of the module with the wire's number.
    /// At a smaller depth they are in the input queue of the switch after, and at depth 0 the processor with the
    /// wire's number takes them.
    pub replies: Row<ReplyView>,
}

/// A request on its way.
#[derive(Debug, Drop)]
pub struct RequestView {
    /// The request: its leader, its word, its function, and how often it was combined in its queue.
    pub request: Request,
    /// The processors that it stands for, in the order in which they are served: the leader first.
    pub group: Row<u8>,
}

/// A reply on its way.
#[derive(Debug, Drop)]
pub struct ReplyView {
    /// The reply: its leader, and the value that the leader finds.
    pub reply: Reply,
    /// The processors that it stands for, in the order in which they were served: the leader first.
    pub group: Row<u8>,
}

impl MachineView {
    /// The view of the place at this depth and wire. None if there is no such place.
    pub fn place(&self, depth: u8, wire: u8) -> Option<&PlaceView>
        ensures { option_copied result ≡ place_at self.now.places depth wire }
    {
        self.places
            .as_slice()
            .get(usize::from(depth))?
            .as_slice()
            .get(usize::from(wire))
    }
}
