//! What a pass stores, and how it stores an answer.

ghost use Rattle.std.specs.Prelude.{◌≡◌, ℕ, ◌<◌, ◌≤◌, ◌+◌, ◌^◌, ◌++◌, true, length, Some, vec_len, vec_capacity};
ghost use Rattle.steps.specs.Kinds.{is_turn_of};
ghost use Rattle.machine_lock.specs.Lists.{given_to};
ghost use Rattle.machine_lock.specs.Rows.{counted, with_answer, with_retirements};
ghost use Rattle.machine_lock.specs.Passes.{row_of};

use crate::kinds::counts;
use crate::row::{Answer, PassEvent};
use flat_machine::{Cause, Event, Retired};
use steps::{Outcome, Step};

/// What a pass stores: the [`crate::PassState`] of its processor.
#[derive(Drop)]
pub struct PassStateVec {
    pub(crate) pass_events: Vec<PassEvent>,
    pub(crate) steps: u32,
    pub(crate) last: Option<Answer>,
    pub(crate) lent: Option<u32>,
}

/// What is written where events are to come.
const BLANK: PassEvent = PassEvent {
    event: Event::Stopped(Cause::Halt(0)),
    place: 0,
};

impl PassStateVec {
    /// Makes room for this many more events, if there is memory for them.
    pub(crate) fn make_room(&mut self, pass_events: usize)
        ensures row { row_of self.new ≡ row_of self.old }
        ensures capacity { vec_capacity self.old.pass_events ≤ vec_capacity self.new.pass_events }
    {
        let _ = self.pass_events.reserve(pass_events);
    }

    /// Makes room for this many more events, if there is memory for them, and writes to it: the system provides memory
    /// when it is first written, which takes as long as a dozen events, and no thread should wait for it under a lock.
    pub(crate) fn make_warm_room(&mut self, pass_events: usize)
        ensures row { row_of self.new ≡ row_of self.old }
        ensures capacity { vec_capacity self.old.pass_events ≤ vec_capacity self.new.pass_events }
    {
        let count = self.pass_events.len();
        if self.pass_events.reserve(pass_events).is_ok() {
            let _ = self.pass_events.resize(count + pass_events, BLANK);
            self.pass_events.truncate(count);
        }
    }

    /// Whether there is room for this many more events.
    #[inline(always)]
    pub(crate) fn has_room_for(&self, pass_events: usize) -> bool
        ensures { result ≡ true → vec_len self.now.pass_events + pass_events ≤ vec_capacity self.now.pass_events }
    {
        self.pass_events.capacity() - self.pass_events.len() >= pass_events
    }

    /// Whether there is room for what the step can give.
    #[inline(always)]
    pub(crate) fn has_room(&self, step: Step) -> bool
        ensures { result ≡ true → (p : ℕ) → is_turn_of p step ≡ true →
            vec_len self.now.pass_events < vec_capacity self.now.pass_events }
    {
        !step.is_turn() || self.pass_events.len() < self.pass_events.capacity()
    }

    /// The outcome of the last answer.
    #[inline(always)]
    pub(crate) fn outcome(&self) -> Outcome
        ensures { (a : Answer) → self.now.last ≡ Some a → result ≡ a.outcome }
    {
        match self.last {
            Some(answer) => answer.outcome,
            None => Outcome::Stalled,
        }
    }

    /// Stores an answer to a call with the pass of this processor. There is room for what it gave.
    #[inline(always)]
    pub(crate) fn store_answer(&mut self, processor: u8, step: Step, outcome: &Outcome, place: u32)
        requires room { (p : ℕ) → is_turn_of p step ≡ true →
            vec_len self.old.pass_events < vec_capacity self.old.pass_events }
        requires steps { self.old.steps + 1 < 2 ^ 32 }
        ensures row { row_of self.new ≡ with_answer processor (row_of self.old) step outcome.now place }
        ensures capacity { vec_capacity self.new.pass_events ≡ vec_capacity self.old.pass_events }
    {
        append(&mut self.pass_events, processor, step, outcome, place);
        self.steps += counts(outcome);
        let outcome = *outcome;
        self.last = Some(Answer {
            step,
            outcome,
            place,
        });
    }
}

impl PassStateVec {
    /// Stores that turns of this processor have retired these instructions, from this place on. There is room for them.
    #[inline(always)]
    pub(crate) fn store_retirements(&mut self, processor: u8, retired: &[Retired], place: u32)
        requires room { vec_len self.old.pass_events + length retired.now ≤ vec_capacity self.old.pass_events }
        requires steps { self.old.steps + length retired.now < 2 ^ 32 }
        requires places { place + length retired.now < 2 ^ 32 }
        ensures { row_of self.new ≡ with_retirements processor (row_of self.old) place retired.now }
    {
        let mut place = place;
        for &retired in retired {
            self.store_answer(
                processor,
                Step::Turn(processor),
                &Outcome::Retired(retired),
                place,
            );
            place += 1;
        }
    }
}

// Appends what the step gave the processor. There is room for it.
#[inline(always)]
fn append(
    pass_events: &mut Vec<PassEvent>,
    processor: u8,
    step: Step,
    outcome: &Outcome,
    place: u32,
)
    requires room { (p : ℕ) → is_turn_of p step ≡ true → vec_len pass_events.old < vec_capacity pass_events.old }
    ensures given { pass_events.new.items ≡ pass_events.old.items ++ given_to processor place step outcome.now }
    ensures capacity { vec_capacity pass_events.new ≡ vec_capacity pass_events.old }
{
    if !step.is_turn_of(processor) {
        return;
    }
    match *outcome {
        Outcome::Retired(retired) => pass_events.push_reserved(PassEvent {
            event: Event::Retired(retired),
            place,
        }),
        Outcome::Stopped(cause) => pass_events.push_reserved(PassEvent {
            event: Event::Stopped(cause),
            place,
        }),
        _ => {}
    }
}
