//! Pokes, and steps that are taken in the room of a reserved log.

use super::{four_adds, one_add, result_of, room_for};
use flat_machine::{PC, Poke};
use machine_log::{LockRefusal, Logged};
use machine_steps::Machine;
use std::process::Abort;
use std::test::Fail;
use steps::{Outcome, Step};
use test_support::{assert_same, lend};

/// Takes these pokes, whose targets the machine has.
pub(super) fn write(rt: &impl Abort, log: &mut Logged, pokes: &[Poke]) -> Result<(), LockRefusal> {
    let machine = log.machine();
    assert!(rt; machine.is_idle());
    let lawful = pokes.iter().all(|poke| machine.is_lawful(*poke));
    assert!(rt; lawful);
    log.pokes(pokes)
}

/// Pokes of all kinds, on a machine of four processors with 1,024 shared words.
static POKES: [Poke; 5] = [
    Poke::Register {
        processor: 2,
        register: 5,
        value: 77,
    },
    Poke::Local {
        processor: 1,
        address: 0x0002_0007,
        value: 200,
    },
    Poke::Shared {
        address: 0x8000_0005,
        value: 9,
    },
    Poke::Shared {
        address: 0x8000_0FFF,
        value: 255,
    },
    Poke::Register {
        processor: 3,
        register: PC,
        value: 0x0001_0004,
    },
];

/// What a processor sees at an address after those pokes.
static SEEN: [(u8, u32, Option<u8>); 15] = [
    (1, 0x0002_0007, Some(200)),
    (0, 0x0002_0007, Some(0)),
    (0, 0x0002_FFFF, Some(0)),
    (3, 0x8000_0005, Some(9)),
    (0, 0x8000_0000, Some(10)),
    (0, 0x8000_0FFF, Some(255)),
    (0, 0x8000_1000, None),
    (0, 0x0001_0000, Some(0x2F)),
    (3, 0x0001_0002, Some(0xB6)),
    (0, 0x0001_FFFF, Some(0)),
    (0, 0x0000_FFFF, None),
    (0, 0x0003_0000, None),
    (0, 0x7FFF_FFFF, None),
    (4, 0x0001_0000, None),
    (4, 0x8000_0000, None),
];

/// Pokes whose targets this machine has, and pokes whose targets it does not have.
static LAWFUL: [(Poke, bool); 14] = [
    (
        Poke::Register {
            processor: 3,
            register: 1,
            value: u32::MAX,
        },
        true,
    ),
    (
        Poke::Register {
            processor: 4,
            register: 1,
            value: 0,
        },
        false,
    ),
    (
        Poke::Register {
            processor: 0,
            register: 0,
            value: 0,
        },
        false,
    ),
    (
        Poke::Register {
            processor: 0,
            register: 31,
            value: 1,
        },
        true,
    ),
    (
        Poke::Register {
            processor: 0,
            register: 32,
            value: 8,
        },
        true,
    ),
    (
        Poke::Register {
            processor: 0,
            register: 32,
            value: 2,
        },
        false,
    ),
    (
        Poke::Register {
            processor: 0,
            register: 33,
            value: 0,
        },
        false,
    ),
    (
        Poke::Local {
            processor: 3,
            address: 0x0002_0000,
            value: 0,
        },
        true,
    ),
    (
        Poke::Local {
            processor: 4,
            address: 0x0002_0000,
            value: 0,
        },
        false,
    ),
    (
        Poke::Local {
            processor: 0,
            address: 0x0001_FFFF,
            value: 0,
        },
        false,
    ),
    (
        Poke::Local {
            processor: 0,
            address: 0x0003_0000,
            value: 0,
        },
        false,
    ),
    (
        Poke::Shared {
            address: 0x8000_0FFF,
            value: 0,
        },
        true,
    ),
    (
        Poke::Shared {
            address: 0x8000_1000,
            value: 0,
        },
        false,
    ),
    (
        Poke::Shared {
            address: 0x7FFF_FFFF,
            value: 0,
        },
        false,
    ),
];

fn expect_seen(rt: &impl Abort, machine: &Machine) {
    for (processor, address, byte) in SEEN.iter().copied() {
        assert_same!(rt; machine.visible_byte(processor, address), byte, address);
    }
    assert_same!(rt; machine.reg(2, 5), Some(77));
    assert_same!(rt; machine.pc(3), Some(0x0001_0004));
    assert_same!(rt; machine.word(1), Some(0x0900));
}

fn expect_lawful(rt: &impl Abort, machine: &Machine) {
    for (poke, is_lawful) in LAWFUL.iter().copied() {
        assert_same!(rt; machine.is_lawful(poke), is_lawful, poke);
    }
}

/// Pokes are entered in the log, and each processor sees its own local memory, shared memory and code, byte by byte,
/// and nothing elsewhere. A poke without a target on the machine is not lawful.
#[test]
fn pokes_are_seen(rt: HostRuntime) -> Result<(), Fail> {
    lend(four_adds(&rt)?, |log| {
        expect_lawful(&rt, log.machine());
        assert_same!(rt; write(&rt, log, &POKES), Ok(()));
        expect_seen(&rt, log.machine());
        assert_same!(rt; log.steps().len(), 5);
        assert_same!(rt; log.steps().last(), Some(&Step::Poke(POKES[4])));
        Ok(())
    })
}

/// Takes a reference by a step and a drain, each in room that was reserved for it.
fn refer(rt: &impl Abort, log: &mut Logged) -> Result<(), LockRefusal> {
    assert_same!(rt; log.room(1)?.step(Step::Turn(0)), Outcome::Issued);
    assert_same!(rt; log.machine().is_open(0), Some(true));
    assert_same!(rt; log.machine().is_open(1), None);
    let most = log.machine().drain_bound();
    assert_same!(rt; log.room(most)?.drain(), 2);
    assert_same!(rt; log.machine().is_open(0), Some(false));
    let wanted = [Step::Turn(0), Step::Serve(0), Step::Turn(0)];
    assert_same!(rt; log.steps(), wanted.as_slice());
    Ok(())
}

/// Takes one instruction in room that was reserved for it, and returns what it writes to a register.
fn take_one(log: &mut Logged) -> Result<Option<u32>, LockRefusal> {
    let k = log.machine().config().k;
    Ok(result_of(log.room(2 * u32::from(k) + 3)?.one(0)))
}

/// A reference is sent and drained in reserved room, and a local instruction follows it. All steps are entered.
#[test]
fn room_is_used(rt: HostRuntime) -> Result<(), Fail> {
    lend(one_add(&rt)?, |log| {
        refer(&rt, log)?;
        assert_same!(rt; take_one(log)?, Some(11));
        assert_same!(rt; log.steps().len(), 4);
        assert_same!(rt; room_for(log, 4_194_301), Err(LockRefusal::Full));
        assert_same!(rt; room_for(log, 4_194_300), Ok(()));
        Ok(())
    })
}
