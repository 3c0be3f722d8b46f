//! Which steps concern a processor.

ghost use Rattle.std.specs.Prelude.{◌≡◌};
ghost use Rattle.messages.specs.Seconds.{seconds_of};
ghost use Rattle.trace_lines.specs.Concerns.{are_one, concerns, is_joined, leader_after, leader_among, leader_or};

use crate::words::processor_of_poke;
use messages::Seconds;
use steps::{Groups, Outcome, Step};

/// Whether a step concerns a processor. The message that stands for it has the leader `leader`, and the step moves or
/// serves one with the leader `moved`.
pub fn concerns(
    processor: u8,
    leader: Option<u8>,
    moved: Option<u8>,
    step: &Step,
    outcome: &Outcome,
) -> bool
    ensures { result ≡ concerns processor leader moved step.now outcome.now }
{
    match *step {
        Step::Turn(turn) => turn == processor,
        Step::Poke(poke) => are_one(processor_of_poke(&poke), Some(processor)),
        Step::Up { .. } | Step::Serve(_) | Step::Down { .. } => {
            are_one(leader, moved) || is_joined(leader, outcome)
        }
    }
}

/// The leader of the message that stands for a processor, after a step. The groups are those before it.
pub fn leader_after(
    groups: &Groups,
    processor: u8,
    leader: Option<u8>,
    step: &Step,
    outcome: &Outcome,
) -> Option<u8>
    ensures { result ≡ leader_after processor groups.now leader step.now outcome.now }
{
    match outcome {
        Outcome::Issued => {
            if step.is_turn_of(processor) {
                Some(processor)
            } else {
                leader
            }
        }
        Outcome::Retired(_) => {
            if step.is_turn_of(processor) {
                None
            } else {
                leader
            }
        }
        Outcome::Combined { first, second } => {
            if are_one(leader, Some(*second)) {
                Some(*first)
            } else {
                leader
            }
        }
        Outcome::Answered { to } => match leader_of_seconds(groups, processor, to) {
            Some(second) => Some(second),
            None => leader,
        },
        _ => leader,
    }
}

/// The first of these seconds whose group has the processor.
fn leader_of_seconds(groups: &Groups, processor: u8, to: &Seconds) -> Option<u8>
    ensures { result ≡ leader_among processor groups.now (seconds_of to.now) }
{
    match *to {
        Seconds::One(one) => leader_or(groups, processor, one, None),
        Seconds::Two(one, two) => {
            let last = leader_or(groups, processor, two, None);
            leader_or(groups, processor, one, last)
        }
        Seconds::Three(one, two, three) => {
            let last = leader_or(groups, processor, three, None);
            let later = leader_or(groups, processor, two, last);
            leader_or(groups, processor, one, later)
        }
    }
}

/// The leader, if its group has the processor, else the other.
fn leader_or(groups: &Groups, processor: u8, leader: u8, other: Option<u8>) -> Option<u8>
    ensures { result ≡ leader_or processor groups.now leader other }
{
    if groups.of(leader).contains(&processor) {
        Some(leader)
    } else {
        other
    }
}

/// Whether there are two processors, and they are one.
fn are_one(one: Option<u8>, other: Option<u8>) -> bool
    ensures { result ≡ are_one one other }
{
    match (one, other) {
        (Some(one), Some(other)) => one == other,
        _ => false,
    }
}

/// Whether a message of this leader is the one with which another is combined.
fn is_joined(leader: Option<u8>, outcome: &Outcome) -> bool
    ensures { result ≡ is_joined leader outcome.now }
{
    match outcome {
        Outcome::Combined { first, .. } => are_one(leader, Some(*first)),
        _ => false,
    }
}
