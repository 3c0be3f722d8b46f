//! The schedule of a run: the next step to ask for.

ghost use Rattle.std.specs.Prelude.{◌≡◌, ◌≤◌, ◌+◌, ◌*◌, ◌^◌, ◌∷◌, [], None, IfSome, length, true, if◌then◌else◌};
ghost use Rattle.schedules.specs.Choices.{choices};
ghost use Rattle.steps.specs.Kinds.{no_poke};
ghost use Rattle.random_schedules.specs.Schedules.{schedule};

use crate::course::Course;
use crate::strategy::Strategy;
use schedules::{choice_at, laws};
use std::marker::Model;
use steps::Step;

/// The schedule of a run. Contracts see the steps that are still to be asked for.
#[derive(Debug, Drop)]
pub struct Schedule {
    strategy: Strategy,
    k: u8,
    /// The number of the run.
    number: u32,
    course: Course,
    /// The number of turns still to be asked for.
    turns: u32,
    /// The place of the network's next step in the list of choices, or the number of choices if none is left.
    place: u32,
}

impl Model for Schedule {
    ghost use Rattle.std.specs.Prelude.{List, ◌++◌, ◌≤◌, drop, length};
    ghost use Rattle.steps.specs.declared.step.Step.{Step};
    ghost use Rattle.schedules.specs.Choices.{choices};
    ghost use Rattle.random_schedules.specs.Schedules.{turns_from};

    ghost Value = { List Step };

    ghost view = { λ s. drop s.place (choices s.k) ++ turns_from s.strategy s.k s.number s.course s.turns };

    ghost invariant = { λ s. (s.k ≤ 6) × (s.place ≤ length (choices s.k)) };
}

impl Schedule {
    /// The schedule of the run of this number, by this strategy, on a machine of `k` stages, with this many turns.
    pub fn new(strategy: Strategy, k: u8, number: u32, turns: u32) -> Self
        requires { k ≤ 6 }
        ensures schedule { result ≡ schedule strategy k number turns }
        ensures own { no_poke result ≡ true }
    {
        Schedule {
            strategy,
            k,
            number,
            course: Course::new(number),
            turns,
            place: choice_count(k),
        }
    }

    /// The next step, or None if all have been asked for.
    pub fn next(&mut self) -> Option<Step>
        ensures next { IfSome result (λ step. self.old ≡ step ∷ self.new) }
        ensures over { result ≡ None → self.old ≡ [] }
    {
        let place = self.place;
        if place < choice_count(self.k) {
            self.place += 1;
            return Some(choice_at(self.k, place));
        }
        if self.turns == 0 {
            return None;
        }
        self.turns -= 1;
        let moves = self.course.next_turn(self.strategy, self.k, self.number);
        self.place = place_after(moves, place);
        Some(Step::Turn(self.course.processor))
    }
}

/// The place in the list of choices after a turn: the list's beginning if the network's steps follow, else its end.
fn place_after(moves: bool, end: u32) -> u32
    ensures { result ≡ (if moves then 0 else end) }
{
    if moves { 0 } else { end }
}

/// The number of choices.
fn choice_count(k: u8) -> u32
    requires { k ≤ 6 }
    ensures count { result ≡ 2 * k * 2 ^ k + 2 ^ k }
    ensures all { result ≡ length (choices k) }
{
    laws::choices_are_of_the_network();
    let wires = 1_u32 << k;
    2 * u32::from(k) * wires + wires
}
