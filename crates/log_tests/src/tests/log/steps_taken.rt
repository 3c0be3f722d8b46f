//! Which steps are entered in a log, one by one.

use super::{four_adds, four_machine, look_at, one_add};
use flat_machine::Poke;
use machine_log::{LockRefusal, Logged};
use machine_steps::Machine;
use std::process::Abort;
use std::test::Fail;
use steps::{Outcome, Step};
use test_support::{COMBINED_ADDS, add_that_found, assert_same, enter_adds, lend};

/// A reference without switches: a turn sends it, the module executes it, and the next turn takes the word that it
/// found. A turn before the reply and a second service stall, and are not entered.
#[test]
fn stalls_are_not_entered(rt: HostRuntime) -> Result<(), Fail> {
    lend(one_add(&rt)?, |log| {
        for (step, outcome, word, entered) in [
            (Step::Serve(0), Outcome::Stalled, 10, 0),
            (Step::Turn(0), Outcome::Issued, 10, 1),
            (Step::Turn(0), Outcome::Stalled, 10, 1),
            (Step::Serve(0), Outcome::Served { leader: 0 }, 15, 2),
            (Step::Serve(0), Outcome::Stalled, 15, 2),
            (Step::Turn(0), Outcome::Retired(add_that_found(10)), 15, 3),
            (Step::Serve(0), Outcome::Stalled, 15, 3),
        ] {
            assert_same!(rt; log.step(step), Ok(outcome));
            assert_same!(rt; log.machine().word(0), Some(word), step);
            assert_same!(rt; log.steps().len(), entered, step);
        }
        let entered = [Step::Turn(0), Step::Serve(0), Step::Turn(0)];
        assert_same!(rt; log.steps(), entered.as_slice());
        Ok(())
    })
}

/// Checks the word that each processor has found.
fn expect_found(rt: &impl Abort, machine: &Machine, found: [u32; 4]) {
    for (p, word) in found.iter().enumerate() {
        assert_same!(rt; machine.reg(p as u8, 10), Some(*word), p);
    }
}

/// Each step of four adds that combine does something, and is entered. A new machine that takes the entered steps
/// reaches the same state.
#[test]
fn entered_steps_replay(rt: HostRuntime) -> Result<(), Fail> {
    lend(four_adds(&rt)?, |log| {
        enter_adds(log, COMBINED_ADDS.len())?;
        assert_same!(rt; log.machine().word(0), Some(25));
        assert_same!(rt; log.steps(), COMBINED_ADDS.as_slice());
        lend(four_machine(rt.alloc())?, |again| {
            again.run(log.steps());
            assert_same!(rt; look_at(again), look_at(log.machine()));
            expect_found(&rt, again, [10, 15, 11, 17]);
        });
        Ok(())
    })
}

/// Steps that name what a machine of four processors does not have.
static UNNAMED: [Step; 9] = [
    Step::Turn(4),
    Step::Turn(255),
    Step::Serve(4),
    Step::Up { stage: 2, wire: 0 },
    Step::Up { stage: 0, wire: 4 },
    Step::Down { stage: 2, wire: 0 },
    Step::Down { stage: 0, wire: 4 },
    Step::Poke(Poke::Register {
        processor: 4,
        register: 1,
        value: 0,
    }),
    Step::Poke(Poke::Local {
        processor: 64,
        address: 0x0002_0000,
        value: 1,
    }),
];

/// Steps that name the last of what such a machine has, and stall.
static NAMED: [Step; 4] = [
    Step::Serve(3),
    Step::Up { stage: 1, wire: 3 },
    Step::Down { stage: 1, wire: 3 },
    Step::Poke(Poke::Shared {
        address: 0,
        value: 0,
    }),
];

/// Checks that the log refuses each step that names what its machine does not have, and that nothing changes.
fn expect_unnamed(rt: &impl Abort, log: &mut Logged) {
    let before = look_at(log.machine());
    let entered = log.steps().len();
    for step in &UNNAMED {
        assert!(rt; !log.names(step), "{step:?}");
        assert_same!(rt; log.step(*step), Err(LockRefusal::Unnamed), step);
        assert_same!(rt; look_at(log.machine()), before, step);
        assert_same!(rt; log.steps().len(), entered, step);
    }
}

/// A step that names what the machine does not have is refused, whether a reference is open or not, and changes
/// nothing. A step that names the last place of its kind is taken.
#[test]
fn refuses_what_it_does_not_have(rt: HostRuntime) -> Result<(), Fail> {
    lend(four_adds(&rt)?, |log| {
        for (place, next) in [Step::Turn(3), Step::Up { stage: 0, wire: 3 }]
            .iter()
            .enumerate()
        {
            expect_unnamed(&rt, log);
            assert!(rt; log.names(next));
            assert!(rt; log.step(*next).is_ok());
            assert_same!(rt; log.steps().len(), place + 1);
        }
        for step in &NAMED {
            assert!(rt; log.names(step), "{step:?}");
            assert_same!(rt; log.step(*step), Ok(Outcome::Stalled), step);
        }
        assert_same!(rt; log.steps().len(), 2);
        Ok(())
    })
}
