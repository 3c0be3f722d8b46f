//! Counts and rounds, worked out by hand.

use flat_machine::Poke;
use messages::Seconds;
use run_counts::{Counts, Held, Longest, counts_text, rounds_of};
use std::process::Abort;
use std::test::Fail;
use steps::{Outcome, Step};
use test_support::{assert_same, lend};

/// Counts eight steps. Two requests meet at a stage, a service for both and one for a single request follow, and the
/// reply for two is split.
fn note_all(rt: &impl Abort, counts: &mut Counts) {
    for (step, outcome, size) in [
        (Step::Turn(0), Outcome::Issued, 0),
        (Step::Turn(1), Outcome::Issued, 0),
        (Step::Up { stage: 0, wire: 1 }, Outcome::Moved, 0),
        (
            Step::Up { stage: 0, wire: 0 },
            Outcome::Combined {
                first: 1,
                second: 0,
            },
            0,
        ),
        (Step::Serve(1), Outcome::Served { leader: 1 }, 2),
        (
            Step::Down { stage: 0, wire: 1 },
            Outcome::Answered {
                to: Seconds::One(0),
            },
            0,
        ),
        (Step::Serve(1), Outcome::Served { leader: 1 }, 1),
        (Step::Down { stage: 0, wire: 1 }, Outcome::Moved, 0),
    ] {
        assert!(rt; counts.step_count() < 8);
        counts.observe(&step, &outcome, size);
    }
}

/// The greatest numbers of messages and records at the stage of a network of two processors.
fn longest() -> Longest {
    let mut longest = Longest::none();
    longest.set(Held::Requests, 0, 3);
    longest.set(Held::Records, 0, 1);
    longest.set(Held::Replies, 0, 2);
    longest
}

#[test]
fn requests_that_meet(rt: HostRuntime) -> Result<(), Fail> {
    let text = lend(Counts::new(rt.alloc())?, |counts| {
        note_all(&rt, counts);
        counts_text(rt.alloc(), counts, &longest(), 7, 1)
    })?;
    assert_same!(rt; text.as_str(), "steps 8 turns 2 up 2 serve 2 down 2 poke 0 rounds 7
stage 0 up 1 combined 1 down 1 split 1 requests 3 records 1 replies 2
module 0 serves 0
module 1 serves 2 1x1 2x1
processor 0 turns 1 retired 0
processor 1 turns 1 retired 0
");
    Ok(())
}

fn turn(processor: u8) -> Step {
    Step::Turn(processor)
}

fn up(stage: u8, wire: u8) -> Step {
    Step::Up { stage, wire }
}

fn down(stage: u8, wire: u8) -> Step {
    Step::Down { stage, wire }
}

/// A round has the turns, then the moves of requests from the last stage to the first, then the services, and then the
/// moves of replies from the first stage to the last.
#[test]
fn rounds(rt: HostRuntime) -> Result<(), Fail> {
    let poke = Step::Poke(Poke::Shared {
        address: 0x8000_0000,
        value: 1,
    });
    assert_same!(rt; rounds_of(&[]), 0);
    for (steps, rounds) in [
        (
            [
                turn(0),
                turn(3),
                up(1, 0),
                up(0, 3),
                Step::Serve(0),
                down(0, 1),
                down(1, 0),
            ],
            1,
        ),
        (
            [
                turn(0),
                turn(0),
                turn(1),
                turn(0),
                turn(2),
                turn(3),
                turn(3),
            ],
            4,
        ),
        (
            [
                up(0, 0),
                up(1, 0),
                up(0, 1),
                up(0, 0),
                up(1, 3),
                Step::Serve(3),
                Step::Serve(2),
            ],
            5,
        ),
        (
            [
                down(1, 0),
                down(0, 0),
                down(1, 1),
                down(1, 3),
                turn(0),
                up(0, 0),
                down(0, 0),
            ],
            3,
        ),
        ([poke, turn(1), poke, turn(2), poke, poke, turn(2)], 2),
    ] {
        assert_same!(rt; rounds_of(&steps), rounds);
    }
    Ok(())
}
