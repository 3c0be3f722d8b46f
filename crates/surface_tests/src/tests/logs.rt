//! The log of a machine of one processor.

use machine_lock::{LockRefusal, Logged};
use machine_steps::{Cause, Fault, Machine, Outcome, Step};
use std::alloc::AllocGlobal;
use std::process::Abort;
use std::test::Fail;
use test_support::{assert_same, lend, machine_of, size};

/// A local instruction, one that refers to shared word 0, and a stop.
const TEXT: &str = "lui x12, 0x80000\namoadd.w x10, x12, (x12)\nebreak";

/// The steps that are entered.
static STEPS: [Step; 5] = [
    Step::Turn(0),
    Step::Turn(0),
    Step::Serve(0),
    Step::Turn(0),
    Step::Turn(0),
];

/// The log of a machine.
fn log_from(rt: &(impl Abort + AllocGlobal), machine: Machine) -> Logged {
    assert!(rt; machine.is_idle());
    assert!(rt; machine.are_home());
    Logged::new(rt.alloc(), machine)
}

/// Makes room in a log for this many more steps.
fn room_for(log: &mut Logged, extra: u32) -> Result<(), LockRefusal> {
    match log.room(extra) {
        Ok(_) => Ok(()),
        Err(refusal) => Err(refusal),
    }
}

/// A drain brings the reference home, by a service and a turn. A step that stalls or is refused is not entered.
#[test]
fn steps_are_entered(rt: HostRuntime) -> Result<(), Fail> {
    let machine = machine_of(rt.alloc(), TEXT, size(0))?;
    lend(log_from(&rt, machine), |log| {
        assert!(rt; matches!(log.one(0), Ok(Outcome::Retired(_))));
        for (p, wanted) in [
            (0, Ok(Outcome::Issued)),
            (0, Ok(Outcome::Stalled)),
            (1, Err(LockRefusal::Unnamed)),
        ] {
            assert_same!(rt; log.step(Step::Turn(p)), wanted, p);
        }
        assert_same!(rt; log.drain(), Ok(2));
        assert_same!(rt; log.machine().word(0), Some(0x8000_0000));
        let stop = Outcome::Stopped(Cause::Fault(Fault::Breakpoint));
        assert_same!(rt; log.one(0), Ok(stop));
        assert_same!(rt; log.steps(), STEPS.as_slice());
    });
    Ok(())
}

/// A log has at most 4,194,304 steps.
#[test]
fn room_is_made(rt: HostRuntime) -> Result<(), Fail> {
    let machine = machine_of(rt.alloc(), TEXT, size(0))?;
    lend(log_from(&rt, machine), |log| {
        assert_same!(rt; room_for(log, 4_194_304), Ok(()));
        assert_same!(rt; room_for(log, 4_194_305), Err(LockRefusal::Full));
        assert_same!(rt; log.steps().len(), 0);
    });
    Ok(())
}
