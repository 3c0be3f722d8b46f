//! The arbiter that the program uses.

ghost use Rattle.std.specs.Prelude.{◌≡◌, ◌≤◌, ◌+◌, ◌*◌, ◌%◌, ◌^◌, Some, slice_get};
ghost use Rattle.schedules.specs.Choices.{choices, first_state, next_state};

use crate::arbiter::Arbiter;
use crate::choice::choice_at;
use crate::generator::{first_state, next_state};
use std::marker::Model;
use steps::Step;

/// An arbiter that picks by a generator of numbers. Its model is the generator's state.
#[derive(Debug, Drop)]
pub struct Shuffled {
    state: u32,
}

impl Model for Shuffled {
    ghost use Rattle.std.specs.Prelude.{ℕ};

    ghost Value = { ℕ };

    ghost view = { λ s. s.state };
}

impl Shuffled {
    /// The arbiter of processor `p`, in a run that begins with `start`.
    pub fn new(start: u32, p: u8) -> Self
        ensures { result ≡ first_state start p }
    {
        Shuffled {
            state: first_state(start, p),
        }
    }
}

impl Arbiter for Shuffled {
    /// Advances to the next state, and picks the step whose place in the list is that number modulo the list's length.
    fn next(&mut self, k: u8) -> Step
        requires { k ≤ 6 }
        ensures state { self.new ≡ next_state self.old }
        ensures step { slice_get (choices k) (self.new % (2 * k * 2 ^ k + 2 ^ k)) ≡ Some result }
    {
        self.state = next_state(self.state);
        let wires = 1_u32 << k;
        choice_at(k, self.state % (2 * u32::from(k) * wires + wires))
    }
}
