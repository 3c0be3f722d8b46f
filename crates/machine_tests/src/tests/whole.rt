//! Whole instructions, one at a time.

use flat_machine::CODE_START;
use std::test::Fail;
use test_support::{Case, Program, check};

#[test]
fn instructions_are_whole(rt: HostRuntime) -> Result<(), Fail> {
    check(rt.alloc(), &CASES)
}

/// One instruction that refers to the shared word at `a2`, one that refers to none, and a stop.
const THREE: Program<'static> = Program {
    entry: CODE_START,
    code: &[
        0x00B6_252F, // amoadd.w a0, a1, (a2)
        0x0015_0513, // addi a0, a0, 1
        0x0010_0073, // ebreak
    ],
    local: &[],
    shared: &[],
};

/// Divisions by zero, the square of the quotient, another division, and a stop.
const DIVIDING: Program<'static> = Program {
    entry: CODE_START,
    code: &[
        0x0205_D533, // divu a0, a1, x0
        0x0205_E5B3, // rem a1, a1, x0
        0x02A5_0633, // mul a2, a0, a0
        0x02A5_36B3, // mulhu a3, a0, a0
        0x02B5_4733, // div a4, a0, a1
        0x0010_0073, // ebreak
    ],
    local: &[],
    shared: &[],
};

/// Each processor gets 10 plus its number in `a1`, and the address of shared word 7 in `a2`.
const EIGHT_ADDS: &str = "
    poke 0 11 10, poke 0 12 0x8000001C,
    poke 1 11 11, poke 1 12 0x8000001C,
    poke 2 11 12, poke 2 12 0x8000001C,
    poke 3 11 13, poke 3 12 0x8000001C,
    poke 4 11 14, poke 4 12 0x8000001C,
    poke 5 11 15, poke 5 12 0x8000001C,
    poke 6 11 16, poke 6 12 0x8000001C,
    poke 7 11 17, poke 7 12 0x8000001C";

static CASES: [Case; 5] = [
    // Processors add to one word, one after another. Each finds the sum of those before.
    Case {
        name: "references are whole",
        machine: "machine 3 2 1 64",
        program: &THREE,
        pokes: &[EIGHT_ADDS],
        calls: &[
            "
            whole 3: wrote 0x10000 0x00B6252F 0
            idle: yes
            word 7: is 13
            pc 3: is 0x10004
            whole 0: wrote 0x10000 0x00B6252F 13
            idle: yes
            word 7: is 23
            pc 0: is 0x10004
            whole 7: wrote 0x10000 0x00B6252F 23
            idle: yes
            word 7: is 40
            pc 7: is 0x10004
            register 7 10: is 23
            pc 1: is 0x10000",
        ],
        order: "turn 3, turn 0, turn 7",
    },
    // A local instruction and a stop take one turn each, and a processor that has stopped takes no more.
    Case {
        name: "turns of their own",
        machine: "machine 3 2 1 64",
        program: &THREE,
        pokes: &[EIGHT_ADDS],
        calls: &[
            "
            whole 5: wrote 0x10000 0x00B6252F 0
            whole 5: wrote 0x10004 0x00150513 1
            whole 5, status 5: faulted 8
            whole 5: stalled
            pc 5: is 0x10008
            register 5 10: is 1
            word 7: is 15
            idle: yes",
        ],
        order: "turn 5, turn 5, turn 5",
    },
    // If a reference is open, or there is no such processor, nothing changes. Then the drain takes three moves up, a
    // service, three moves down, and the turn.
    Case {
        name: "nothing is done beside a reference",
        machine: "machine 3 2 1 64",
        program: &THREE,
        pokes: &[EIGHT_ADDS],
        calls: &[
            "
            whole 8: stalled
            turn 2: issued
            whole 0, whole 1, whole 2, whole 3, whole 4, whole 5, whole 6, whole 7, whole 8: stalled
            next: up 0 2
            word 7: is 0
            drain: is 8
            word 7: is 12
            whole 0: wrote 0x10000 0x00B6252F 12",
        ],
        order: "turn 0",
    },
    // The network of the smallest machine has no stage.
    Case {
        name: "a machine without stages",
        machine: "machine 0 2 1 8",
        program: &THREE,
        pokes: &["poke 0 12 0x80000000"],
        calls: &[
            "
            whole 0: wrote 0x10000 0x00B6252F 0
            whole 1: stalled",
        ],
        order: "turn 0",
    },
    // A division by zero is no fault. Its quotient is all ones, and its remainder the dividend. The square of all ones
    // is 0xFFFFFFFE00000001, and all ones, which are -1, divided by -7 are 0.
    Case {
        name: "a division by zero",
        machine: "machine 0 2 1 8",
        program: &DIVIDING,
        pokes: &["poke 0 11 0xFFFFFFF9"],
        calls: &[
            "
            whole 0: wrote 0x10000 0x0205D533 0xFFFFFFFF
            whole 0: wrote 0x10004 0x0205E5B3 0xFFFFFFF9
            whole 0: wrote 0x10008 0x02A50633 1
            whole 0: wrote 0x1000C 0x02A536B3 0xFFFFFFFE
            whole 0: wrote 0x10010 0x02B54733 0
            whole 0, status 0: faulted 8",
        ],
        order: "turn 0, turn 0, turn 0, turn 0, turn 0, turn 0",
    },
];
