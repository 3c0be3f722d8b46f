//! Random schedules and runs, worked out by hand. The states of the generator were computed by another program.

ghost use Rattle.std.specs.Prelude.{◌≤◌};

use hunt_command::{Policy, random_run};
use random_schedules::{Schedule, Strategy};
use schedules::SweepEnd;
use std::process::Abort;
use std::test::Fail;
use steps::Step;
use test_support::{assert_same, log_of, tight_size};

/// Checks that the schedule has exactly these turns, each with whether the network moves after it.
fn compare(rt: &impl Abort, strategy: Strategy, k: u8, number: u32, turns: &[(u8, bool)])
    requires { k ≤ 6 }
{
    let mut schedule = Schedule::new(strategy, k, number, turns.len().min(255) as u32);
    for (p, moves) in turns {
        assert_same!(rt; schedule.next(), Some(Step::Turn(*p)), number);
        if *moves {
            assert_same!(rt; schedule.next(), Some(Step::Up { stage: 0, wire: 0 }));
            for _ in 2..(2_u32 * u32::from(k) + 1) << k {
                assert!(rt; !matches!(schedule.next(), Some(Step::Turn(_)) | None));
            }
            let last = Step::Down {
                stage: k.saturating_sub(1),
                wire: (1 << k) - 1,
            };
            assert_same!(rt; schedule.next(), Some(last));
        }
    }
    assert_same!(rt; schedule.next(), None);
}

/// Run 6 chooses a processor in each turn, run 1 if the upper half of the generator's state is even, and run 8 if 4
/// divides it.
#[test]
fn schedules(rt: HostRuntime) {
    compare(
        &rt,
        Strategy::Random,
        1,
        1,
        &[(1, true), (1, true), (1, true), (1, false), (1, false)],
    );
    compare(
        &rt,
        Strategy::Random,
        2,
        6,
        &[
            (2, true),
            (2, true),
            (2, false),
            (2, false),
            (2, true),
            (0, false),
            (0, true),
            (1, false),
        ],
    );
    compare(
        &rt,
        Strategy::Random,
        2,
        8,
        &[
            (0, false),
            (0, true),
            (0, true),
            (0, true),
            (0, true),
            (0, true),
            (0, false),
            (3, false),
        ],
    );
}

/// The following processor takes each turn, or the one after that. The network moves at the end of most rounds.
#[test]
fn schedules_like_the_sweep(rt: HostRuntime) {
    let (moves, stays) = (true, false);
    compare(
        &rt,
        Strategy::SweepLike,
        2,
        5,
        &[
            (2, stays),
            (3, stays),
            (0, moves),
            (2, stays),
            (3, stays),
            (0, moves),
            (2, stays),
            (0, moves),
            (1, stays),
            (2, stays),
            (3, stays),
            (0, moves),
        ],
    );
    compare(
        &rt,
        Strategy::SweepLike,
        1,
        3,
        &[
            (0, stays),
            (0, moves),
            (0, stays),
            (1, stays),
            (0, moves),
            (1, stays),
            (0, stays),
            (1, stays),
        ],
    );
}

/// Turns of one processor, one after another.
type Segment = (u8, u32);

/// Checks that the schedule by priorities begins with these turns, after each of which the network moves.
fn compare_by_priorities(rt: &impl Abort, k: u8, depth: u8, number: u32, segments: &[Segment])
    requires { k ≤ 6 }
{
    let mut schedule = Schedule::new(Strategy::Pct { depth }, k, number, 255);
    for (processor, turns) in segments {
        for _ in 0..*turns {
            assert_same!(rt; schedule.next(), Some(Step::Turn(*processor)), (k, number));
            for _ in 0..(2_u32 * u32::from(k) + 1) << k {
                assert!(rt; !matches!(schedule.next(), Some(Step::Turn(_)) | None));
            }
        }
    }
}

/// Epochs of 16 turns for each processor. Without a change of priority each takes its turns at once; a change cuts them.
/// The second epoch of the first schedule begins after 32 turns.
#[test]
fn schedules_by_priorities(rt: HostRuntime) {
    compare_by_priorities(&rt, 1, 1, 4, &[(1, 16), (0, 16), (1, 8)]);
    compare_by_priorities(&rt, 2, 3, 4, &[(3, 16), (1, 16), (2, 8), (0, 16), (2, 14)]);
    compare_by_priorities(
        &rt,
        2,
        3,
        8,
        &[(1, 13), (0, 16), (3, 16), (2, 16), (1, 3), (2, 6)],
    );
    compare_by_priorities(
        &rt,
        3,
        16,
        4,
        &[
            (3, 12),
            (5, 10),
            (1, 1),
            (7, 11),
            (4, 3),
            (2, 2),
            (0, 12),
            (6, 11),
            (1, 9),
            (2, 11),
            (1, 6),
            (7, 1),
            (3, 1),
            (7, 4),
            (6, 5),
            (4, 13),
            (5, 6),
            (2, 3),
            (3, 3),
            (0, 4),
            (6, 3),
            (7, 9),
        ],
    );
}

/// A depth is that of priorities alone, and a greater one than 16 counts as 16.
#[test]
fn strategies_have_names(rt: HostRuntime) {
    assert_same!(rt; Strategy::named("random", 5), Some(Strategy::Random));
    assert_same!(rt; Strategy::named("pct", 5), Some(Strategy::Pct { depth: 5 }));
    assert_same!(rt; Strategy::named("sweep-like", 5), Some(Strategy::SweepLike));
    assert_same!(rt; Strategy::named("PCT", 5), None);
    let mut deep = Schedule::new(Strategy::Pct { depth: 255 }, 3, 4, 100);
    let mut deepest = Schedule::new(Strategy::Pct { depth: 16 }, 3, 4, 100);
    for _ in 0..1000 {
        assert_same!(rt; deep.next(), deepest.next());
    }
}

/// Random runs of at most this many steps and turns.
fn at_random(budget: u32) -> Policy {
    Policy {
        strategy: Strategy::Random,
        budget,
    }
}

/// In run 1 the network moves after each of the first three turns. If the budget is two turns, the run ends while the
/// reference is open, and a drain brings it home.
#[test]
fn runs_of_one_processor(rt: HostRuntime) -> Result<(), Fail> {
    let text = "lui x5, 0x80000\nlw x6, 0(x5)\necall";
    let (turn, serve) = (Step::Turn(0), Step::Serve(0));
    let mut log = log_of(rt.alloc(), text, tight_size(0))?;
    assert_same!(rt; random_run(&mut log, 1, at_random(100)), Ok(SweepEnd::Over));
    assert_same!(rt; log.steps(), [turn, turn, serve, turn, turn].as_slice());
    let mut log = log_of(rt.alloc(), text, tight_size(0))?;
    assert_same!(rt; random_run(&mut log, 1, at_random(2)), Ok(SweepEnd::Budget));
    assert_same!(rt; log.steps(), [turn, turn, serve, turn].as_slice());
    Ok(())
}

/// In run 1 processor 1 has the first turns, and halts in the first. Turns that stall count towards the budget too.
#[test]
fn turns_are_bounded(rt: HostRuntime) -> Result<(), Fail> {
    let mut log = log_of(rt.alloc(), "ecall", tight_size(1))?;
    assert_same!(rt; random_run(&mut log, 1, at_random(4)), Ok(SweepEnd::Budget));
    assert_same!(rt; log.steps(), [Step::Turn(1)].as_slice());
    Ok(())
}
