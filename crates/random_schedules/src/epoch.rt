//! Epochs: turns of all processors by priorities that change a few times.

ghost use Rattle.std.specs.Prelude.{◌≡◌, ◌≤◌, ◌<◌, ◌+◌, ◌↔◌, Some, [], length, slice_get, true};
ghost use Rattle.schedules.specs.Choices.{next_state};
ghost use Rattle.random_schedules.specs.Epochs.{change_count, cut_at, epoch_from, lowered, shuffled};
ghost use Rattle.random_schedules.specs.Epochs.{turns_each, with_changes};
ghost use Rattle.random_schedules.specs.Schedules.{first_turn};

use arrayvec::ArrayVec;
use schedules::next_state;
use std::marker::Model;

/// The most segments of an epoch: one for each processor, and one more for each change of priority.
const MOST_SEGMENTS: usize = 80;

/// Turns of one processor, one after another.
#[derive(Clone, Copy, Debug, Default, PartialEq, Eq, Drop)]
pub struct Segment {
    pub processor: u8,
    pub turns: u32,
}

/// The turns that are left of an epoch, those of the highest priority first, and the generator that draws epochs.
#[derive(Debug, Drop)]
pub struct Epoch {
    segments: ArrayVec<Segment, MOST_SEGMENTS>,
    state: u32,
}

impl Model for Epoch {
    ghost use Rattle.random_schedules.specs.Epochs.{EpochModel};

    ghost Value = { EpochModel };

    ghost view = { λ e. record { segments = e.segments.items; state = e.state } };
}

impl Epoch {
    /// No turns, before the first epoch is drawn from this state of the generator on.
    pub(crate) fn new(state: u32) -> Self
        ensures { result ≡ record { segments = []; state = state } }
    {
        Epoch {
            segments: ArrayVec::new(),
            state,
        }
    }

    /// Whether no turns are left.
    pub(crate) fn is_over(&self) -> bool
        ensures { (result ≡ true) ↔ (self.now.segments ≡ []) }
    {
        self.segments.is_empty()
    }

    /// Advances the generator, and returns its state.
    pub(crate) fn advance(&mut self) -> u32
        ensures state { result ≡ next_state self.old.state }
        ensures kept { self.new ≡ record { segments = self.old.segments; state = result } }
    {
        self.state = next_state(self.state);
        self.state
    }

    /// Takes the first turn that is left, and returns its processor, or 0 if none is left.
    pub(crate) fn take_turn(&mut self) -> u8
        ensures { first_turn self.old.state self.old.segments ≡ record { epoch = self.new; processor = result } }
    {
        let Some(first) = self.segments.as_slice().first() else {
            return 0;
        };
        let Segment { processor, turns } = *first;
        if turns <= 1 {
            self.segments.remove(0);
        } else {
            self.segments[0] = Segment {
                processor,
                turns: turns - 1,
            };
        }
        processor
    }

    /// Draws the next epoch of the run with this number.
    pub(crate) fn draw(&mut self, k: u8, depth: u8, number: u32)
        requires { k ≤ 6 }
        ensures { self.new ≡ epoch_from k depth number self.old.state }
    {
        let turns = turns_each(number);
        let processors = 1_u8 << k;
        self.shuffle(turns, processors);
        self.change_priorities(turns * u32::from(processors), change_count(depth));
    }

    /// Gives each of the first processors a segment of this many turns, in an order that is drawn.
    fn shuffle(&mut self, turns: u32, count: u8)
        requires { count ≤ 64 }
        ensures shuffled { self.new ≡ shuffled turns self.old.state count }
        ensures count { length self.new.segments ≡ count }
    {
        self.segments.clear();
        for processor in 0..count {
            let place = self.advance() % (u32::from(processor) + 1);
            self.segments
                .insert(place as usize, Segment { processor, turns });
        }
    }

    /// Changes a priority this many times, each after a turn that is drawn from the epoch's turns.
    fn change_priorities(&mut self, turns: u32, count: u8)
        requires some { 0 < turns }
        requires room { length self.old.segments + count ≤ 80 }
        ensures { self.new ≡ with_changes turns count self.old }
    {
        for _change in 0..count {
            let place = self.advance() % turns;
            self.lower(place);
        }
    }

    /// After the turn at this place, gives its processor the lowest priority.
    fn lower(&mut self, place: u32)
        requires { length self.old.segments < 80 }
        ensures lowered { self.new ≡ record { segments = lowered place self.old.segments; state = self.old.state } }
        ensures longer { length self.new.segments ≤ length self.old.segments + 1 }
    {
        let mut place = place;
        for at in 0..self.segments.len() {
            let segment = self.segments[at];
            if place < segment.turns {
                self.cut(at, segment, place + 1);
                return;
            }
            place -= segment.turns;
        }
    }

    /// Leaves this many turns of a segment where it is, and moves the others to the end.
    fn cut(&mut self, at: usize, segment: Segment, turns: u32)
        requires there { slice_get self.old.segments at ≡ Some segment }
        requires few { turns ≤ segment.turns }
        requires room { length self.old.segments < 80 }
        ensures { self.new ≡ record { segments = cut_at at segment turns self.old.segments; state = self.old.state } }
    {
        let Segment {
            processor,
            turns: all,
        } = segment;
        self.segments[at] = Segment { processor, turns };
        if turns < all {
            self.segments.push(Segment {
                processor,
                turns: all - turns,
            });
        }
    }
}

/// How many turns each processor has in an epoch of the run with this number.
fn turns_each(number: u32) -> u32
    ensures turns { result ≡ turns_each number }
    ensures some { 0 < result }
    ensures few { result ≤ 1024 }
{
    1 << (4 + 2 * (number % 4))
}

/// How often a priority changes in an epoch, to find bugs of this depth.
fn change_count(depth: u8) -> u8
    ensures count { result ≡ change_count depth }
    ensures few { result ≤ 15 }
{
    depth.saturating_sub(1).min(15)
}
