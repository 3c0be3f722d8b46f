//! The first steps of the program's arbiter, computed independently of it: after state 1 the generator gives 270369,
//! 67634689, 2647435461, 307599695 and 2398689233.

ghost use Rattle.std.specs.Prelude.{◌≤◌};

use schedules::{Arbiter, Shuffled};
use std::test::*;
use steps::Step;
use test_support::assert_same;

fn up(stage: u8, wire: u8) -> Step {
    Step::Up { stage, wire }
}

fn down(stage: u8, wire: u8) -> Step {
    Step::Down { stage, wire }
}

fn five(start: u32, p: u8, k: u8) -> [Step; 5]
    requires { k ≤ 6 }
{
    let mut arbiter = Shuffled::new(start, p);
    [
        arbiter.next(k),
        arbiter.next(k),
        arbiter.next(k),
        arbiter.next(k),
        arbiter.next(k),
    ]
}

#[test]
fn first_steps(rt: HostRuntime) {
    let one = [
        Step::Serve(1),
        Step::Serve(1),
        up(0, 1),
        down(0, 3),
        down(0, 1),
    ];
    assert_same!(rt; five(1, 0, 2), one);
    assert_same!(rt; five(0, 1, 2), one);
    // A sum of 0 is replaced by 1, and a sum of 2^32 wraps to 0.
    assert_same!(rt; five(0, 0, 2), one);
    assert_same!(rt; five(4_294_967_295, 1, 2), one);
    assert_same!(rt; five(4_294_967_295, 2, 6), [down(5, 33), down(2, 1), down(3, 5), up(2, 15), down(5, 17)]);
    assert_same!(rt; five(1, 3, 2), [down(1, 0), up(0, 0), Step::Serve(0), up(1, 0), down(0, 0)]);
    assert_same!(rt; five(12_345, 63, 6), [up(5, 31), up(2, 34), up(3, 61), down(3, 44), up(4, 36)]);
    // Without stages there is only one step.
    assert_same!(rt; five(1, 0, 0), [Step::Serve(0); 5]);
}
