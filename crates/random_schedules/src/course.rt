//! The course of a schedule: from one turn to the next.

ghost use Rattle.std.specs.Prelude.{◌≡◌, ◌≤◌, ◌+◌, ◌/◌, ◌%◌, ◌^◌, ◌==◌, if◌then◌else◌};
ghost use Rattle.random_schedules.specs.Schedules.{favoured_processor, following_processor, next_turn, opening_course};
ghost use Rattle.random_schedules.specs.Schedules.{pct_turn, random_turn, sweep_like_turn};

use crate::epoch::Epoch;
use crate::strategy::Strategy;
use schedules::first_state;

/// How far a schedule has come.
#[derive(Debug, Drop)]
pub struct Course {
    /// What is left of an epoch, and the generator.
    pub(crate) epoch: Epoch,
    /// The processor of the last turn.
    pub(crate) processor: u8,
}

impl Course {
    /// The course at the beginning of the run with this number.
    pub(crate) fn new(number: u32) -> Self
        ensures { result ≡ opening_course number }
    {
        Course {
            epoch: Epoch::new(first_state(number, 0)),
            processor: 0,
        }
    }

    /// Goes on to the next turn, which is that of `processor` then. Returns whether the network's steps follow it.
    pub(crate) fn next_turn(&mut self, strategy: Strategy, k: u8, number: u32) -> bool
        requires { k ≤ 6 }
        ensures { next_turn strategy k number self.old ≡ record { course = self.new; moves = result } }
    {
        match strategy {
            Strategy::Random => self.random_turn(k, number),
            Strategy::SweepLike => self.sweep_like_turn(k),
            Strategy::Pct { depth } => self.pct_turn(k, depth, number),
        }
    }

    fn random_turn(&mut self, k: u8, number: u32) -> bool
        requires { k ≤ 6 }
        ensures { random_turn k number self.old ≡ record { course = self.new; moves = result } }
    {
        let state = self.epoch.advance();
        self.processor = favoured_processor(k, number, state, self.processor);
        state / 256 % 2 == 0
    }

    fn sweep_like_turn(&mut self, k: u8) -> bool
        requires { k ≤ 6 }
        ensures { sweep_like_turn k self.old ≡ record { course = self.new; moves = result } }
    {
        let state = self.epoch.advance();
        let before = self.processor;
        self.processor = following_processor(k, state, before);
        self.processor <= before && state / 256 % 4 != 0
    }

    fn pct_turn(&mut self, k: u8, depth: u8, number: u32) -> bool
        requires { k ≤ 6 }
        ensures { pct_turn k depth number self.old ≡ record { course = self.new; moves = result } }
    {
        if self.epoch.is_over() {
            self.epoch.draw(k, depth, number);
        }
        self.processor = self.epoch.take_turn();
        true
    }
}

/// The processor that is favoured after this state of the generator.
fn favoured_processor(k: u8, number: u32, state: u32, before: u8) -> u8
    requires { k ≤ 6 }
    ensures { result ≡ favoured_processor k number state before }
{
    if state / 65_536 % (1 << (number % 6)) == 0 {
        (state % (1 << k)) as u8
    } else {
        before
    }
}

/// The processor after this one, or the one after that.
fn following_processor(k: u8, state: u32, before: u8) -> u8
    requires { k ≤ 6 }
    ensures { result ≡ following_processor k state before }
{
    let step = if state / 65_536 % 4 == 0 { 2 } else { 1 };
    ((u32::from(before) + step) % (1 << k)) as u8
}
