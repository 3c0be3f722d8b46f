//! The rounds of a schedule.

ghost use Rattle.std.specs.Prelude.{◌≡◌, ◌≤◌, ◌+◌, ◌<◌, ◌^◌};
ghost use Rattle.run_counts.specs.Rounds.{IsFewest, before_down, before_serve, before_turn, before_up, begun_at};
ghost use Rattle.run_counts.specs.Rounds.{comes_before};
ghost use Rattle.run_counts.specs.Rounds.{goes_on};

use steps::Step;

/// The rounds of the sweep that the steps so far began.
#[derive(Clone, Copy, Debug, PartialEq, Eq, Drop)]
pub struct Begun {
    /// How many they are.
    pub count: usize,
    /// The last step that a round asks for.
    pub last: Option<Step>,
}

/// The fewest rounds of the sweep that take these steps in their order. A round takes turns, then moves of requests
/// from the last stage on, then services, then moves of replies from the first stage on. A write from outside is of
/// no round.
pub fn rounds_of(steps: &[Step]) -> usize
    ensures { IsFewest steps.now result }
{
    let mut begun = Begun {
        count: 0,
        last: None,
    };
    for step in steps {
        begun = rounds_after(begun, step);
    }
    begun.count
}

/// The rounds that the steps so far and one more began. The last of them is the round of that step, unless it is a
/// write from outside.
pub fn rounds_after(begun: Begun, step: &Step) -> Begun
    requires { begun.count + 1 < 2 ^ 64 }
    ensures exact { result ≡ begun_at begun step.now }
    ensures few { result.count ≤ begun.count + 1 }
{
    if step.is_poke() {
        return begun;
    }
    let count = if goes_on(&begun.last, step) {
        begun.count
    } else {
        begun.count + 1
    };
    Begun {
        count,
        last: Some(*step),
    }
}

/// Whether a step is in the same round as the last one.
fn goes_on(last: &Option<Step>, step: &Step) -> bool
    ensures { result ≡ goes_on last.now step.now }
{
    match last {
        Some(last) => comes_before(last, step),
        None => false,
    }
}

/// Whether a round asks for the first step before the second.
fn comes_before(first: &Step, second: &Step) -> bool
    ensures { result ≡ comes_before first.now second.now }
{
    match *first {
        Step::Turn(processor) => before_turn(processor, second),
        Step::Up { stage, wire } => before_up(stage, wire, second),
        Step::Serve(place) => before_serve(place, second),
        Step::Down { stage, wire } => before_down(stage, wire, second),
        Step::Poke(_) => false,
    }
}

/// Whether a round asks for a turn before the step.
fn before_turn(processor: u8, step: &Step) -> bool
    ensures { result ≡ before_turn processor step.now }
{
    match *step {
        Step::Turn(other) => processor < other,
        Step::Up { .. } | Step::Serve(_) | Step::Down { .. } => true,
        Step::Poke(_) => false,
    }
}

/// Whether a round asks for a move of a request before the step. It begins at the last stage.
fn before_up(stage: u8, wire: u8, step: &Step) -> bool
    ensures { result ≡ before_up stage wire step.now }
{
    match *step {
        Step::Up {
            stage: other,
            wire: on,
        } => other < stage || stage == other && wire < on,
        Step::Serve(_) | Step::Down { .. } => true,
        Step::Turn(_) | Step::Poke(_) => false,
    }
}

/// Whether a round asks for a service before the step.
fn before_serve(place: u8, step: &Step) -> bool
    ensures { result ≡ before_serve place step.now }
{
    match *step {
        Step::Serve(other) => place < other,
        Step::Down { .. } => true,
        Step::Turn(_) | Step::Up { .. } | Step::Poke(_) => false,
    }
}

/// Whether a round asks for a move of a reply before the step. It begins at the first stage.
fn before_down(stage: u8, wire: u8, step: &Step) -> bool
    ensures { result ≡ before_down stage wire step.now }
{
    match *step {
        Step::Down {
            stage: other,
            wire: on,
        } => stage < other || stage == other && wire < on,
        Step::Turn(_) | Step::Up { .. } | Step::Serve(_) | Step::Poke(_) => false,
    }
}
