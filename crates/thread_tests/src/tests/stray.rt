//! Arbiters that name a place that the machine does not have. The program is that of the other rounds, and what is
//! expected is worked out by hand.

ghost use Rattle.std.specs.Prelude.{◌≤◌};

use super::rounds::run_text;
use processor_threads::{Open, RunFault};
use schedules::Arbiter;
use std::test::Fail;
use steps::Step;
use test_support::{HUNDRED_ADDS, assert_same, lend};

/// Always names the service of a module that no machine has.
#[derive(Drop)]
struct Stray;

impl Arbiter for Stray {
    fn next(&mut self, _k: u8) -> Step
        requires { _k ≤ 6 }
    {
        Step::Serve(200)
    }
}

/// No request moves: each of two processors retires the three instructions before its first reference, sends its
/// request, and uses up its budget. Both passes come back. A drain then brings both references home in four steps each.
#[test]
fn no_place_of_the_machine(rt: HostRuntime) -> Result<(), Fail> {
    let seen = run_text(&rt, rt.alloc(), HUNDRED_ADDS, 1, |_| Stray, &Open, 1000)?;
    lend(seen, |seen| {
        assert_same!(rt; seen.fault, Some(RunFault::Budget));
        assert_same!(rt; seen.faults.as_slice(), [Some(RunFault::Budget); 2].as_slice());
        assert_same!(rt; seen.retired.as_slice(), [3, 3].as_slice());
        assert_same!(rt; seen.logged.machine().word(0), Some(0));
        assert_same!(rt; seen.logged.drain(), Ok(8));
        assert_same!(rt; seen.logged.machine().word(0), Some(2));
    });
    Ok(())
}
