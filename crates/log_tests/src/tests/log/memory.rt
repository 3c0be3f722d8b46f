//! The tests run with each of their allocations refused in turn. A call then reports that it is out of memory, which
//! ends the test, or it returns what it returns with ample memory.

use super::pokes::write;
use super::{log_from, room_for};
use elf_image::{Image, read_image};
use flat_machine::{Cause, Config, Poke, SHARED_START};
use link::Meter;
use machine_log::{LockRefusal, Logged};
use machine_steps::Machine;
use schedules::{SweepEnd, follow_sweep};
use std::alloc::Global;
use std::test::Fail;
use steps::{Outcome, Step};
use test_support::{assert_same, image_of, lend};

/// A machine of two processors.
const TWO: Config = Config {
    k: 1,
    c: 2,
    b: 1,
    r: 1,
    shared_words: 4,
};

/// The image of a program by which each processor adds to the shared word at `a2`, and halts.
fn image(alloc: Global) -> Result<Image, Fail> {
    let file = image_of(alloc, "amoadd.w a0, a1, (a2)\necall")?;
    Ok(read_image(alloc, &mut Meter::new(file.as_slice()), &TWO)?)
}

/// The machine of a copy of that image.
fn machine(alloc: Global) -> Result<Machine, Fail> {
    let copy = lend(image(alloc)?, |image| image.copy(alloc))?;
    Ok(Machine::new(alloc, copy, TWO)?)
}

/// The pokes after which processor 0 is to add 5 to shared word 0.
static POKES: [Poke; 2] = [
    Poke::Register {
        processor: 0,
        register: 11,
        value: 5,
    },
    Poke::Register {
        processor: 0,
        register: 12,
        value: SHARED_START,
    },
];

/// Takes a step, and returns whether it had this outcome.
fn does(log: &mut Logged, step: Step, outcome: Outcome) -> Result<bool, LockRefusal> {
    match log.step(step) {
        Ok(answer) => Ok(answer == outcome),
        Err(refusal) => Err(refusal),
    }
}

/// Takes an instruction of a processor, and returns whether it halted the processor with 0.
fn halts(log: &mut Logged, processor: u8) -> Result<bool, LockRefusal> {
    match log.one(processor) {
        Ok(answer) => Ok(answer == Outcome::Stopped(Cause::Halt(0))),
        Err(refusal) => Err(refusal),
    }
}

/// After its first turn, a reference through one stage takes two moves, the module's service and the turn that retires
/// it. Then processor 0 halts, and processor 1 stops by a fault because its address is 0.
#[test]
fn log_is_short_of_memory(rt: HostRuntime) -> Result<(), Fail> {
    lend(log_from(&rt, machine(rt.alloc())?), |log| {
        write(&rt, log, &POKES)?;
        assert!(rt; does(log, Step::Turn(0), Outcome::Issued)?);
        assert_same!(rt; log.drain()?, 4);
        assert_same!(rt; log.machine().word(0), Some(5));
        room_for(log, 100)?;
        assert!(rt; halts(log, 0)?);
        assert_same!(rt; follow_sweep(log, 100)?, SweepEnd::Over);
        assert_same!(rt; log.steps().len(), 9);
        Ok(())
    })
}

/// The serial order is the two pokes, because no reference is served.
#[test]
fn order_is_short_of_memory(rt: HostRuntime) -> Result<(), Fail> {
    let steps = [Step::Poke(POKES[0]), Step::Poke(POKES[1]), Step::Turn(0)];
    lend(machine(rt.alloc())?, |machine| {
        assert!(rt; machine.is_idle());
        assert_same!(rt; machine.order(rt.alloc(), &steps)?.len(), 2);
        Ok(())
    })
}
