//! The longest queues.

ghost use Rattle.std.specs.Prelude.{◌≡◌, ◌<◌};
ghost use Rattle.run_counts.specs.Longest.{at_stage, no_longest, with_longest};

/// The most stages of a network.
const STAGES: usize = 6;

/// What a list at an output or an input of a switch holds.
#[derive(Clone, Copy, Debug, PartialEq, Eq, Drop)]
pub enum Held {
    /// Requests, in the queue of an output.
    Requests,
    /// Records of requests that were combined, in the wait buffer of an output.
    Records,
    /// Replies, in the queue of an input.
    Replies,
}

/// For each stage, the most requests that one queue of its switches held at once, the most records in one wait buffer,
/// and the most replies in one queue.
#[derive(Clone, Copy, Debug, PartialEq, Eq, Drop)]
pub struct Longest {
    /// By stage.
    pub requests: [usize; STAGES],
    /// By stage.
    pub records: [usize; STAGES],
    /// By stage.
    pub replies: [usize; STAGES],
}

impl Longest {
    /// All numbers 0, as before the first step.
    pub fn none() -> Self
        ensures { result ≡ no_longest }
    {
        Longest {
            requests: [0; STAGES],
            records: [0; STAGES],
            replies: [0; STAGES],
        }
    }

    /// The most of them that one list of a stage held at once. 0 if there is no such stage.
    pub fn at(&self, held: Held, stage: u8) -> usize
        ensures { result ≡ at_stage self.now held stage }
    {
        let counts = match held {
            Held::Requests => &self.requests,
            Held::Records => &self.records,
            Held::Replies => &self.replies,
        };
        match counts.get(usize::from(stage)) {
            Some(count) => *count,
            None => 0,
        }
    }

    /// Sets the most that one list of a stage held at once.
    pub fn set(&mut self, held: Held, stage: u8, most: usize)
        requires { stage < 6 }
        ensures { self.new ≡ with_longest self.old held stage most }
    {
        let place = usize::from(stage);
        match held {
            Held::Requests => self.requests[place] = most,
            Held::Records => self.records[place] = most,
            Held::Replies => self.replies[place] = most,
        }
    }
}
