//! Rounds of the sweep, worked out by hand.

ghost use Rattle.std.specs.Prelude.{◌≤◌};

use run_counts::rounds_of;
use schedules::step_at;
use std::alloc::{AllocError, AllocGlobal, Global};
use std::process::Abort;
use std::test::Fail;
use steps::Step;
use test_support::{assert_same, lend};

/// The steps of a round, in their order.
pub(super) fn round_of(alloc: Global, k: u8) -> Result<Vec<Step>, AllocError>
    requires { k ≤ 6 }
{
    let mut steps = Vec::new(alloc);
    for row in 0..2 * k + 2 {
        for wire in 0..1_u8 << k {
            steps.push(step_at(k, row, wire))?;
        }
    }
    Ok(steps)
}

/// Two processors, whose messages pass one stage.
static ONE_STAGE: [Step; 8] = [
    Step::Turn(0),
    Step::Turn(1),
    Step::Up { stage: 0, wire: 0 },
    Step::Up { stage: 0, wire: 1 },
    Step::Serve(0),
    Step::Serve(1),
    Step::Down { stage: 0, wire: 0 },
    Step::Down { stage: 0, wire: 1 },
];

/// One processor: a turn and a service.
#[test]
fn round_without_stages(rt: HostRuntime) -> Result<(), Fail> {
    lend(round_of(rt.alloc(), 0)?, |round| {
        assert_same!(rt; round.as_slice(), [Step::Turn(0), Step::Serve(0)].as_slice());
    });
    Ok(())
}

#[test]
fn round_of_one_stage(rt: HostRuntime) -> Result<(), Fail> {
    lend(round_of(rt.alloc(), 1)?, |round| {
        assert_same!(rt; round.as_slice(), ONE_STAGE.as_slice());
    });
    Ok(())
}

/// Checks that a round of a machine with `k` stages has this many steps, and these at their places.
fn expect_steps(
    rt: &(impl Abort + AllocGlobal),
    k: u8,
    count: usize,
    steps: &[(usize, Step)],
) -> Result<(), Fail>
    requires { k ≤ 6 }
{
    lend(round_of(rt.alloc(), k)?, |round| {
        assert_same!(rt; round.len(), count);
        for (place, step) in steps {
            assert_same!(rt; round.get(*place), Some(step));
        }
    });
    Ok(())
}

/// Steps of the round of four processors: moves up from the last stage on, and moves down from the first stage on.
static TWO_STAGES: [(usize, Step); 5] = [
    (4, Step::Up { stage: 1, wire: 0 }),
    (11, Step::Up { stage: 0, wire: 3 }),
    (12, Step::Serve(0)),
    (16, Step::Down { stage: 0, wire: 0 }),
    (23, Step::Down { stage: 1, wire: 3 }),
];

#[test]
fn round_of_two_stages(rt: HostRuntime) -> Result<(), Fail> {
    expect_steps(&rt, 2, 24, &TWO_STAGES)
}

/// The first and the last step of a round of the largest machine.
static SIX_STAGES: [(usize, Step); 2] = [
    (0, Step::Turn(0)),
    (895, Step::Down { stage: 5, wire: 63 }),
];

#[test]
fn round_of_six_stages(rt: HostRuntime) -> Result<(), Fail> {
    expect_steps(&rt, 6, 896, &SIX_STAGES)
}

/// Rounds are counted by the order of the sweep. All its steps in that order are one round. In reverse order, each step
/// is a round of its own.
#[test]
fn counts_rounds_by_the_order_of_the_sweep(rt: HostRuntime) -> Result<(), Fail> {
    for k in 0..7 {
        let round = round_of(rt.alloc(), k)?;
        let mut back = Vec::new(rt.alloc());
        for step in round.iter().rev() {
            back.push(*step)?;
        }
        assert_same!(rt; rounds_of(round.as_slice()), 1, k);
        assert_same!(rt; rounds_of(back.as_slice()), round.len(), k);
    }
    Ok(())
}
