//! Logs of small programs. Results of instructions come from the RISC-V manual, and all other values are worked out by
//! hand.

mod limits;
mod memory;
mod pokes;
mod steps_taken;
mod whole;

use flat_machine::{Config, Status};
use machine_log::{LockRefusal, Logged};
use machine_steps::Machine;
use std::alloc::{AllocGlobal, Global};
use std::process::Abort;
use std::test::Fail;
use steps::Outcome;
use test_support::{FOUR_ADDENDS, adders, size};

/// A machine of one processor.
const ONE: Config = Config {
    k: 0,
    c: 2,
    b: 0,
    r: 1,
    shared_words: 1024,
};

/// An instruction that refers to the shared word at `a2`, one that refers to none, and a stop.
const CODE: &str = "amoadd.w a0, a1, (a2)\naddi a0, a0, 1\nebreak";

/// A machine of four processors that are to add 1, 2, 4 and 8 to shared word 0, which is 10.
fn four_machine(alloc: Global) -> Result<Machine, Fail> {
    adders(alloc, CODE, size(2), 10, &FOUR_ADDENDS)
}

/// The log of a machine.
fn log_from(rt: &(impl Abort + AllocGlobal), machine: Machine) -> Logged {
    assert!(rt; machine.is_idle());
    assert!(rt; machine.are_home());
    Logged::new(rt.alloc(), machine)
}

/// The log of a machine of one processor that is to add 5 to shared word 0, which is 10.
fn one_add(rt: &(impl Abort + AllocGlobal)) -> Result<Logged, Fail> {
    Ok(log_from(rt, adders(rt.alloc(), CODE, ONE, 10, &[(0, 5)])?))
}

/// The log of the machine of four processors.
fn four_adds(rt: &(impl Abort + AllocGlobal)) -> Result<Logged, Fail> {
    Ok(log_from(rt, four_machine(rt.alloc())?))
}

/// What is visible of a machine of four processors: the `pc`, `a0` and status of each, word 0, and whether no reference
/// is open.
#[derive(Clone, Copy, Debug, PartialEq, Eq, Drop)]
struct Seen {
    processors: [(Option<u32>, Option<u32>, Option<Status>); 4],
    word: Option<u32>,
    is_idle: bool,
}

fn look_at(machine: &Machine) -> Seen {
    Seen {
        processors: [
            (machine.pc(0), machine.reg(0, 10), machine.status(0)),
            (machine.pc(1), machine.reg(1, 10), machine.status(1)),
            (machine.pc(2), machine.reg(2, 10), machine.status(2)),
            (machine.pc(3), machine.reg(3, 10), machine.status(3)),
        ],
        word: machine.word(0),
        is_idle: machine.is_idle(),
    }
}

/// The result that an instruction wrote to a register, if it retired.
fn result_of(outcome: Outcome) -> Option<u32> {
    match outcome {
        Outcome::Retired(retired) => retired.result,
        _ => None,
    }
}

/// Asks a log for room for this many more steps.
fn room_for(log: &mut Logged, extra: u32) -> Result<(), LockRefusal> {
    match log.room(extra) {
        Ok(_) => Ok(()),
        Err(refusal) => Err(refusal),
    }
}
