//! Steps and their outcomes.

ghost use Rattle.std.specs.Prelude.{◌≡◌, ◌≤◌};
ghost use Rattle.steps.specs.Answers.{is_stalled};
ghost use Rattle.steps.specs.Kinds.{is_network, is_poke, is_turn, is_turn_of, is_within, turn_processor};

use flat_machine::{Cause, Poke, Retired};
use messages::Seconds;

/// The most steps that a trace has.
pub const MAX_STEPS: usize = 4_194_304;

/// One step of the machine, which is taken whole.
#[derive(Clone, Copy, Debug, PartialEq, Eq, Drop)]
pub enum Step {
    /// A turn of a processor.
    Turn(u8),
    /// The request before a stage, on this wire, is offered to its switch.
    Up { stage: u8, wire: u8 },
    /// A memory module executes the first request at it.
    Serve(u8),
    /// The reply after a stage, on this wire, is answered at its switch.
    Down { stage: u8, wire: u8 },
    /// A write from outside, to a machine in which no reference is open.
    Poke(Poke),
}

impl Step {
    /// The processor whose turn the step is, if it is a turn.
    #[inline(always)]
    pub fn turn_processor(&self) -> Option<u8>
        ensures { result ≡ turn_processor self.now }
    {
        match *self {
            Step::Turn(processor) => Some(processor),
            Step::Up { .. } | Step::Serve(_) | Step::Down { .. } | Step::Poke(_) => None,
        }
    }

    /// Whether the step is a turn.
    #[inline(always)]
    pub fn is_turn(&self) -> bool
        ensures { result ≡ is_turn self.now }
    {
        matches!(self, Step::Turn(_))
    }

    /// Whether the step is a turn of this processor.
    #[inline(always)]
    pub fn is_turn_of(&self, processor: u8) -> bool
        ensures { result ≡ is_turn_of processor self.now }
    {
        match *self {
            Step::Turn(turn) => turn == processor,
            Step::Up { .. } | Step::Serve(_) | Step::Down { .. } | Step::Poke(_) => false,
        }
    }

    /// Whether the step moves a message in the network, or is a service by a module.
    #[inline(always)]
    pub fn is_network(&self) -> bool
        ensures { result ≡ is_network self.now }
    {
        matches!(self, Step::Up { .. } | Step::Serve(_) | Step::Down { .. })
    }

    /// Whether the step writes from outside.
    #[inline(always)]
    pub fn is_poke(&self) -> bool
        ensures { result ≡ is_poke self.now }
    {
        matches!(self, Step::Poke(_))
    }

    /// Whether a machine of this many stages has the numbers that the step names.
    pub fn is_within(&self, k: u8) -> bool
        requires stages { k ≤ 6 }
        ensures { result ≡ is_within k self.now }
    {
        let wires = 1_u8 << k;
        match *self {
            Step::Turn(place) | Step::Serve(place) => place < wires,
            Step::Up { stage, wire } | Step::Down { stage, wire } => stage < k && wire < wires,
            Step::Poke(Poke::Register { processor, .. } | Poke::Local { processor, .. }) => {
                processor < wires
            }
            Step::Poke(Poke::Shared { .. }) => true,
        }
    }
}

/// What a step did.
#[derive(Clone, Copy, Debug, PartialEq, Eq, Drop)]
pub enum Outcome {
    /// The processor's instruction is done.
    Retired(Retired),
    /// The processor has sent a request to a shared word, and is open until it retires.
    Issued,
    /// The processor has stopped.
    Stopped(Cause),
    /// A message has moved one stage.
    Moved,
    /// A request was combined with one that waited at the switch.
    Combined {
        /// The leader of the request that waited. It leads both now.
        first: u8,
        /// The leader of the request that came.
        second: u8,
    },
    /// The module has executed the request of this leader.
    Served {
        leader: u8,
    },
    /// A reply was split: the leader's went on, and so did those of the seconds.
    Answered {
        /// The seconds, in the order of their combinations.
        to: Seconds,
    },
    /// The poke was written.
    Poked,
    /// Nothing was done: the step names no place of the machine, there was nothing to move or no room for it, the
    /// processor does not run or waits for its reply, or the poke is not lawful or a reference was open.
    Stalled,
}

impl Outcome {
    /// Whether the step did nothing.
    pub fn is_stalled(&self) -> bool
        ensures { result ≡ is_stalled self.now }
    {
        matches!(self, Outcome::Stalled)
    }
}
