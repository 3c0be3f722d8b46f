//! What a pass stores.

use flat_machine::Event;
use std::collections::LinkedList;
use steps::{Outcome, Step};

/// A retirement or a stop of a processor, with its place: how many steps the log had before it.
#[derive(Clone, Copy, Debug, PartialEq, Eq, Drop)]
pub struct PassEvent {
    pub event: Event,
    pub place: u32,
}

/// The last answer to a call with a pass, and how many steps the log had before it.
#[derive(Clone, Copy, Debug, PartialEq, Eq, Drop)]
pub struct Answer {
    pub step: Step,
    pub outcome: Outcome,
    pub place: u32,
}

/// All that a pass stores: its processor's retirements and its stop, how many steps its calls have entered, the last
/// answer, and for how many instructions its processor's core is lent, if it is. No value of it is made.
pub struct PassState {
    pub pass_events: LinkedList<PassEvent>,
    pub steps: u32,
    pub last: Option<Answer>,
    pub lent: Option<u32>,
}
