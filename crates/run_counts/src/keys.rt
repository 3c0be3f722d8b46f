//! Which count each step increases.

ghost use Rattle.std.specs.Prelude.{◌≡◌};
ghost use Rattle.run_counts.specs.Keys as keys;

use steps::{Outcome, Step};

/// One more than the most processors in a group.
const SIZES: u16 = 65;

/// The kind of a step: a turn, a move of a request, a service, a move of a reply, or a write from outside.
pub(crate) fn kind(step: &Step) -> Option<u16>
    ensures { result ≡ keys.kind step.now }
{
    match *step {
        Step::Turn(_) => Some(0),
        Step::Up { .. } => Some(1),
        Step::Serve(_) => Some(2),
        Step::Down { .. } => Some(3),
        Step::Poke(_) => Some(4),
    }
}

/// The processor of a turn.
pub(crate) fn turn(step: &Step) -> Option<u16>
    ensures { result ≡ keys.turn step.now }
{
    match *step {
        Step::Turn(p) => Some(u16::from(p)),
        _ => None,
    }
}

/// The stage of a request's move.
fn rise(step: &Step) -> Option<u16>
    ensures { result ≡ keys.rise step.now }
{
    match *step {
        Step::Up { stage, .. } => Some(u16::from(stage)),
        _ => None,
    }
}

/// The module of a service.
pub(crate) fn service(step: &Step) -> Option<u16>
    ensures { result ≡ keys.service step.now }
{
    match *step {
        Step::Serve(m) => Some(u16::from(m)),
        _ => None,
    }
}

/// The stage of a reply's move.
fn return_of(step: &Step) -> Option<u16>
    ensures { result ≡ keys.return step.now }
{
    match *step {
        Step::Down { stage, .. } => Some(u16::from(stage)),
        _ => None,
    }
}

/// The processor whose instruction retired.
pub(crate) fn processor_of_retirement(step: &Step, outcome: &Outcome) -> Option<u16>
    ensures { result ≡ keys.retired step.now outcome.now }
{
    match *outcome {
        Outcome::Retired(_) => turn(step),
        _ => None,
    }
}

/// The processor whose request was sent.
pub(crate) fn processor_of_request(step: &Step, outcome: &Outcome) -> Option<u16>
    ensures { result ≡ keys.issued step.now outcome.now }
{
    match *outcome {
        Outcome::Issued => turn(step),
        _ => None,
    }
}

/// The stage through which a request moved without being combined.
pub(crate) fn stage_of_move(step: &Step, outcome: &Outcome) -> Option<u16>
    ensures { result ≡ keys.moved step.now outcome.now }
{
    match *outcome {
        Outcome::Moved => rise(step),
        _ => None,
    }
}

/// The stage at which a request was combined into another.
pub(crate) fn stage_of_combination(step: &Step, outcome: &Outcome) -> Option<u16>
    ensures { result ≡ keys.combined step.now outcome.now }
{
    match *outcome {
        Outcome::Combined { .. } => rise(step),
        _ => None,
    }
}

/// The stage through which a reply moved without being split.
pub(crate) fn stage_of_reply(step: &Step, outcome: &Outcome) -> Option<u16>
    ensures { result ≡ keys.returned step.now outcome.now }
{
    match *outcome {
        Outcome::Moved => return_of(step),
        _ => None,
    }
}

/// The stage at which a reply was split.
pub(crate) fn stage_of_split(step: &Step, outcome: &Outcome) -> Option<u16>
    ensures { result ≡ keys.split step.now outcome.now }
{
    match *outcome {
        Outcome::Answered { .. } => return_of(step),
        _ => None,
    }
}

/// The place of the module that served a group of this size, in the table of all modules and sizes.
pub(crate) fn group(step: &Step, outcome: &Outcome, size: usize) -> Option<u16>
    ensures { result ≡ keys.group step.now outcome.now size }
{
    match *outcome {
        Outcome::Served { .. } => place_of(size, step),
        _ => None,
    }
}

/// The place of a group of this size at the module of a service.
fn place_of(size: usize, step: &Step) -> Option<u16>
    ensures { result ≡ keys.place_of size (keys.service step.now) }
{
    match *step {
        Step::Serve(m) if size < 65 => Some(u16::from(m) * SIZES + size as u16),
        _ => None,
    }
}
