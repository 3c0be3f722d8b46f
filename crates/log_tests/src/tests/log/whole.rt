//! Whole instructions, drains, and room for steps.

use super::{Seen, four_adds, look_at, result_of, room_for};
use flat_machine::{Cause, Fault, Status};
use machine_log::LockRefusal;
use machine_steps::Machine;
use std::alloc::AllocGlobal;
use std::process::Abort;
use std::test::Fail;
use steps::{Outcome, Step};
use test_support::{assert_same, enter_adds, lend};

/// The visible state if all four processors run, with these values of `pc` and `a0`, and no reference is open.
fn running(at: [(u32, u32); 4], word: u32) -> Seen {
    let run = Some(Status::Running);
    Seen {
        processors: at.map(|(pc, a0)| (Some(pc), Some(a0), run)),
        word: Some(word),
        is_idle: true,
    }
}

/// The steps of a reference of processor 2 through two stages.
static REFERENCE: [Step; 7] = [
    Step::Turn(2),
    Step::Up { stage: 0, wire: 2 },
    Step::Up { stage: 1, wire: 0 },
    Step::Serve(0),
    Step::Down { stage: 1, wire: 0 },
    Step::Down { stage: 0, wire: 0 },
    Step::Turn(2),
];

/// Checks that processor 2 has added its 4 to the word.
fn expect_added(rt: &impl Abort, machine: &Machine) {
    let at = 0x0001_0000;
    let wanted = running([(at, 0), (at, 0), (at + 4, 10), (at, 0)], 14);
    assert_same!(rt; look_at(machine), wanted);
}

/// A reference through two stages takes seven steps, all entered: its turn, two moves up, the service, two moves down,
/// and the turn that retires it. A local instruction and a stop take one step each, and a processor that has stopped
/// takes none.
#[test]
fn one_enters_an_instruction(rt: HostRuntime) -> Result<(), Fail> {
    lend(four_adds(&rt)?, |log| {
        assert_same!(rt; result_of(log.one(2)?), Some(10));
        expect_added(&rt, log.machine());
        assert_same!(rt; log.steps(), REFERENCE.as_slice());
        assert_same!(rt; result_of(log.one(2)?), Some(11));
        assert_same!(rt; log.steps().len(), 8);
        let stop = Outcome::Stopped(Cause::Fault(Fault::Breakpoint));
        assert_same!(rt; log.one(2), Ok(stop));
        assert_same!(rt; log.steps().len(), 9);
        assert_same!(rt; log.one(2), Ok(Outcome::Stalled));
        assert_same!(rt; log.steps().len(), 9);
        assert_same!(rt; log.machine().word(0), Some(14));
        Ok(())
    })
}

/// If a reference is open, or if there is no such processor, no step is taken.
#[test]
fn one_wants_an_idle_machine(rt: HostRuntime) -> Result<(), Fail> {
    lend(four_adds(&rt)?, |log| {
        assert_same!(rt; log.one(4), Err(LockRefusal::Unnamed));
        assert_same!(rt; log.step(Step::Turn(1)), Ok(Outcome::Issued));
        let before = look_at(log.machine());
        for p in 0..4u8 {
            assert_same!(rt; log.one(p), Ok(Outcome::Stalled));
        }
        assert_same!(rt; log.one(255), Err(LockRefusal::Unnamed));
        assert_same!(rt; look_at(log.machine()), before);
        assert_same!(rt; log.steps().len(), 1);
        Ok(())
    })
}

/// Checks a drain after the first `taken` steps of the adds that combine. It takes and enters `moves` steps, and a
/// second drain takes none.
fn expect_drain(
    rt: &(impl Abort + AllocGlobal),
    taken: usize,
    moves: u32,
    values: [u32; 4],
) -> Result<(), Fail> {
    lend(four_adds(rt)?, |log| {
        enter_adds(log, taken)?;
        let entered = log.steps().len();
        assert_same!(rt; log.drain(), Ok(moves));
        assert_same!(rt; log.steps().len(), entered + moves as usize);
        let at = values.map(|a0| (0x0001_0004, a0));
        assert_same!(rt; look_at(log.machine()), running(at, 25));
        assert_same!(rt; log.drain(), Ok(0));
        assert_same!(rt; log.steps().len(), entered + moves as usize);
        Ok(())
    })
}

/// If no request has moved, each goes to the module and back by itself, in 24 steps. If two pairs have combined at the
/// first stage, half as many steps are enough.
#[test]
fn drain_enters_its_steps(rt: HostRuntime) -> Result<(), Fail> {
    expect_drain(&rt, 4, 24, [10, 11, 13, 17])?;
    expect_drain(&rt, 8, 12, [10, 15, 11, 17])
}

/// Numbers of steps for which a log of one step has room, and others for which it does not.
static ROOM: [(u32, Option<LockRefusal>); 5] = [
    (0, None),
    (1, None),
    (4_194_303, None),
    (4_194_304, Some(LockRefusal::Full)),
    (u32::MAX, Some(LockRefusal::Full)),
];

/// Room is reserved up to the greatest number of steps of a log, and no further. That changes nothing visible.
#[test]
fn room_is_made_to_the_limit(rt: HostRuntime) -> Result<(), Fail> {
    lend(four_adds(&rt)?, |log| {
        assert_same!(rt; log.step(Step::Turn(0)), Ok(Outcome::Issued));
        let before = look_at(log.machine());
        for (extra, refusal) in &ROOM {
            assert_same!(rt; room_for(log, *extra).err(), *refusal, extra);
            assert_same!(rt; log.steps(), [Step::Turn(0)].as_slice(), extra);
            assert_same!(rt; look_at(log.machine()), before, extra);
        }
        Ok(())
    })
}
