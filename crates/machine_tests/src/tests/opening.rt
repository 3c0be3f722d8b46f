//! The state in which machines start.

use flat_machine::{CODE_START, Config};
use machine_steps::Machine;
use std::process::Abort;
use std::test::Fail;
use steps::{Outcome, Step};
use test_support::{Case, Program, assert_same, check};

#[test]
fn machines_open(rt: HostRuntime) -> Result<(), Fail> {
    check(rt.alloc(), &CASES)
}

/// A store into local memory.
const LOCAL_STORE: Program<'static> = Program {
    entry: CODE_START,
    code: &[
        0x0002_00B7, // lui x1, 0x20
        0x0050_0113, // addi x2, x0, 5
        0x0020_80A3, // sb x2, 1(x1)
    ],
    local: &[7, 8],
    shared: &[],
};

/// A store into shared memory, and a load of what it stored.
const STORE_AND_LOAD: Program<'static> = Program {
    entry: CODE_START,
    code: &[
        0x8000_00B7, // lui x1, 0x80000
        0x0050_0113, // addi x2, x0, 5
        0x0020_A223, // sw x2, 4(x1)
        0x0040_A183, // lw x3, 4(x1)
    ],
    local: &[],
    shared: &[],
};

/// A reference of the one processor. The machine has no network through which messages could move.
const THERE_AND_BACK: &str = "
    serve 0: stalled
    turn 0: issued
    turn 0, up 0 0, down 0 0: stalled
    serve 0: served 0
    idle: no";

static CASES: [Case; 3] = [
    // Each processor runs at the entry, with registers of zero and the local bytes of the image in a memory of its own.
    // The shared bytes of the image are in the shared words, the lowest byte of each first.
    Case {
        name: "the opening of an image",
        machine: "machine 2 4 4 1024",
        program: &Program {
            entry: 0x0001_0008,
            code: &[0x0000_0073, 0x0000_0073, 0x0000_0073],
            local: &[7, 8],
            shared: &[1, 2, 3, 4, 5],
        },
        pokes: &[],
        calls: &[
            "
            idle: yes
            pc 0, pc 1, pc 2, pc 3: is 0x10008
            status 0, status 1, status 2, status 3: running
            blank 0, blank 1, blank 2, blank 3: yes
            byte 0 0x20000: is 7
            byte 0 0x20001: is 8
            byte 0 0x20002: is 0
            byte 1 0x20000: is 7
            byte 1 0x20001: is 8
            byte 1 0x20002: is 0
            byte 2 0x20000: is 7
            byte 2 0x20001: is 8
            byte 2 0x20002: is 0
            byte 3 0x20000: is 7
            byte 3 0x20001: is 8
            byte 3 0x20002: is 0
            word 0: is 0x04030201
            word 1: is 5
            word 2, word 1023: is 0",
        ],
        order: "",
    },
    // No other processor sees what a processor stores in its local memory.
    Case {
        name: "local memories are apart",
        machine: "machine 2 4 4 1024",
        program: &LOCAL_STORE,
        pokes: &[],
        calls: &[
            "
            turn 1: wrote 0x10000 0x000200B7 0x20000
            turn 1: wrote 0x10004 0x00500113 5
            turn 1: retired 0x10008 0x002080A3
            idle: yes
            byte 0 0x20000: is 7
            byte 0 0x20001: is 8
            byte 1 0x20000: is 7
            byte 1 0x20001: is 5
            byte 2 0x20000: is 7
            byte 2 0x20001: is 8
            byte 3 0x20000: is 7
            byte 3 0x20001: is 8",
        ],
        order: "turn 1, turn 1, turn 1",
    },
    // A machine of one processor has no stage. A request is at the module at once, and a reply at the processor.
    Case {
        name: "one processor",
        machine: "machine 0 2 0 2",
        program: &STORE_AND_LOAD,
        pokes: &[],
        calls: &[
            "
            pc 1, word 2: none
            turn 0: wrote 0x10000 0x800000B7 0x80000000
            turn 0: wrote 0x10004 0x00500113 5",
            THERE_AND_BACK,
            "
            turn 0: retired 0x10008 0x0020A223
            idle: yes",
            THERE_AND_BACK,
            "
            turn 0: wrote 0x1000C 0x0040A183 5
            idle: yes
            word 1: is 5
            word 0: is 0",
        ],
        order: "turn 0, turn 0, turn 0, turn 0",
    },
];

/// Each processor adds its number to a word of its own.
const WORDS_OF_THEIR_OWN: Program<'static> = Program {
    entry: CODE_START,
    code: &[
        0x8000_00B7, // lui x1, 0x80000
        0x0020_0893, // addi x17, x0, 2
        0x0000_0073, // ecall (its number, into x10)
        0x0025_1593, // slli x11, x10, 2
        0x00B0_80B3, // add x1, x1, x11
        0x00A0_A62F, // amoadd.w x12, x10, (x1)
    ],
    local: &[],
    shared: &[],
};

/// A machine with the most processors and the least of all else. All processors add at once, each to a word of its own.
#[test]
fn largest_machine(rt: HostRuntime) -> Result<(), Fail> {
    let config = Config {
        k: 6,
        c: 2,
        b: 0,
        r: 1,
        shared_words: 64,
    };
    let mut machine = WORDS_OF_THEIR_OWN.machine(rt.alloc(), config)?;
    for _ in 0..6 {
        take_turns(&mut machine);
    }
    go_there(&rt, &mut machine);
    come_back(&rt, &mut machine);
    take_turns(&mut machine);
    expect_sums(&rt, &machine);
    Ok(())
}

/// Each processor takes a turn.
fn take_turns(machine: &mut Machine) {
    for p in 0..64u8 {
        machine.apply(Step::Turn(p));
    }
}

/// Checks that each processor is at the end of the program, and that each word has the number of its processor.
fn expect_sums(rt: &impl Abort, machine: &Machine) {
    for p in 0..64u8 {
        assert_same!(rt; machine.pc(p), Some(0x0001_0018), p);
        assert_same!(rt; machine.word(u32::from(p)), Some(u32::from(p)));
    }
    assert!(rt; machine.is_idle());
}

/// Moves all requests to the modules, which serve them.
fn go_there(rt: &impl Abort, machine: &mut Machine) {
    assert!(rt; !machine.is_idle());
    for stage in 0..6u8 {
        for wire in 0..64u8 {
            let outcome = machine.apply(Step::Up { stage, wire });
            assert_same!(rt; outcome, Outcome::Moved, (&stage, &wire));
        }
    }
    for m in 0..64u8 {
        let outcome = machine.apply(Step::Serve(m));
        assert_same!(rt; outcome, Outcome::Served { leader: m });
    }
}

/// Moves all replies to the processors.
fn come_back(rt: &impl Abort, machine: &mut Machine) {
    for stage in [5, 4, 3, 2, 1, 0] {
        for wire in 0..64u8 {
            let outcome = machine.apply(Step::Down { stage, wire });
            assert_same!(rt; outcome, Outcome::Moved, (&stage, &wire));
        }
    }
}
