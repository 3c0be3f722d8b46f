//! The trait of arbiters.

ghost use Rattle.std.specs.Prelude.{◌≤◌};

use steps::Step;

/// An arbiter names the step that a thread asks for besides its processor's turns. It may name any step, even one that
/// stalls or for which the machine has no place.
pub trait Arbiter {
    /// The next step, on a machine of `2^k` processors.
    fn next(&mut self, k: u8) -> Step
        requires { k ≤ 6 };
}
