//! A log that is almost full, and one that is full.

use super::{look_at, one_add, room_for};
use machine_log::{LockRefusal, Logged};
use std::process::Abort;
use std::test::Fail;
use steps::{MAX_STEPS, Outcome, Step};
use test_support::{assert_same, lend, poke_often};

/// Steps that a full log of one processor refuses, and why.
static REFUSED: [(Step, LockRefusal); 4] = [
    (Step::Turn(0), LockRefusal::Full),
    (Step::Serve(0), LockRefusal::Full),
    (Step::Turn(1), LockRefusal::Unnamed),
    (Step::Up { stage: 0, wire: 0 }, LockRefusal::Unnamed),
];

/// Fills a log that has room for two steps with a turn and a service.
fn fill_up(rt: &impl Abort, log: &mut Logged) {
    assert_same!(rt; room_for(log, 2), Ok(()));
    assert_same!(rt; room_for(log, 3), Err(LockRefusal::Full));
    assert_same!(rt; log.one(0), Err(LockRefusal::Full));
    assert_same!(rt; log.drain(), Ok(0));
    assert_same!(rt; log.step(Step::Turn(0)), Ok(Outcome::Issued));
    assert_same!(rt; log.drain(), Err(LockRefusal::Full));
    assert_same!(rt; log.steps().len(), 4_194_303);
    let served = Outcome::Served { leader: 0 };
    assert_same!(rt; log.step(Step::Serve(0)), Ok(served));
    assert_same!(rt; log.steps().len(), MAX_STEPS);
}

/// Checks that the log has no room for any step, and that nothing changes it.
fn expect_full(rt: &impl Abort, log: &mut Logged) {
    let before = look_at(log.machine());
    for (step, refusal) in &REFUSED {
        assert_same!(rt; log.step(*step), Err(*refusal), step);
    }
    assert_same!(rt; log.one(1), Err(LockRefusal::Unnamed));
    assert_same!(rt; log.one(0), Err(LockRefusal::Full));
    assert_same!(rt; log.drain(), Err(LockRefusal::Full));
    assert_same!(rt; room_for(log, 1), Err(LockRefusal::Full));
    assert_same!(rt; room_for(log, 0), Ok(()));
    assert_same!(rt; look_at(log.machine()), before);
    assert_same!(rt; log.steps().len(), 4_194_304);
}

/// With one processor, a drain asks for two places and an instruction for three, even if it needs fewer. A log of
/// 4,194,304 steps takes no more, not even a step that would stall, and nothing changes. A step that names no place of
/// the machine is still refused for that.
#[test]
fn log_has_a_limit(rt: HostRuntime) -> Result<(), Fail> {
    lend(one_add(&rt)?, |log| {
        poke_often(log, 4_194_302)?;
        fill_up(&rt, log);
        expect_full(&rt, log);
        Ok(())
    })
}
