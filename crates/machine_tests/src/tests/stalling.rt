//! Steps that stall, and why. Nothing of the machine changes.

use super::pieces::{ADDS, FOUR_TURNS};
use flat_machine::CODE_START;
use std::test::Fail;
use test_support::{Case, Program, check};

#[test]
fn steps_stall(rt: HostRuntime) -> Result<(), Fail> {
    check(rt.alloc(), &CASES)
}

/// Steps that name no place of a machine of four processors and two stages.
const NO_PLACES: &str = "
    turn 4, turn 64, turn 255, serve 4, serve 64, serve 255: stalled
    up 2 0, up 6 0, up 255 0, up 0 4, up 1 4, up 0 255: stalled
    down 2 0, down 255 0, down 0 4, down 1 4, down 0 255, poke 4 11 1, poke 255 11 1: stalled
    poke_local 4 0x20000 0xA5, poke_local 255 0x20000 0xA5: stalled
";

/// All moves of messages and all services of a machine of four processors and two stages.
const ALL_MOVES: &str = "
    up 0 0, up 1 0, serve 0, down 1 0, down 0 0, up 0 1, up 1 1, serve 1, down 1 1, down 0 1: stalled
    up 0 2, up 1 2, serve 2, down 1 2, down 0 2, up 0 3, up 1 3, serve 3, down 1 3, down 0 3: stalled
";

/// All moves and services that are not on the path of a message between processor 3 and module 0, and pokes. The path
/// goes from wire 3 through switch 1 to wire 2, and then through switch 0 to wire 0.
const OFF_THE_WAY: &str = "
    up 0 0, up 0 1, up 0 2, up 1 0, up 1 1, up 1 3, serve 1, serve 2, serve 3: stalled
    down 1 1, down 1 2, down 1 3, down 0 0, down 0 1, down 0 3, poke 0 11 7, poke 3 11 7: stalled
    poke 3 32 0x10000, poke_local 0 0x20000 0xA5, poke_local 3 0x20000 0xA5: stalled
    poke_shared 0x80000000 0xA5, poke_shared 0x80000008 0xA5: stalled
";

/// Pokes that have no target on a machine of six shared words.
const NO_TARGETS: &str = "
    poke 0 0 1, poke 0 32 0x10001, poke 0 32 0x10002, poke 0 32 0xFFFFFFFF, poke 0 33 4: stalled
    poke 0 255 4, poke_local 0 0 0xA5, poke_local 0 0x10000 0xA5, poke_local 0 0x1FFFF 0xA5: stalled
    poke_local 0 0x30000 0xA5, poke_local 0 0x80000000 0xA5, poke_shared 0 0xA5: stalled
    poke_shared 0x10000 0xA5, poke_shared 0x20000 0xA5, poke_shared 0x7FFFFFFF 0xA5: stalled
    poke_shared 0x80000018 0xA5, poke_shared 0xFFFFFFFF 0xA5: stalled
";

const TURN_OF_1: &str = "
    turn 1: stalled
";

/// Processor 1 is poked.
const POKED: &str = "
    poke 1 11 5, poke 1 32 0x10004, poke_local 1 0x20000 0xA5: poked
    register 1 11: is 5
    pc 1: is 0x10004
    byte 1 0x20000: is 0xA5";

static CASES: [Case; 7] = [
    Case {
        name: "there are no such places",
        calls: &[NO_PLACES, FOUR_TURNS, NO_PLACES],
        ..ADDS
    },
    Case {
        name: "an idle machine has nothing to move",
        calls: &[ALL_MOVES],
        ..ADDS
    },
    // One request goes to the module, and its reply back. Before each of their moves all other steps stall, and pokes
    // stall as long as the reference is open.
    Case {
        name: "one message moves",
        calls: &[
            "
            turn 3: issued",
            OFF_THE_WAY,
            "
            up 1 2, serve 0, down 1 0, down 0 2, turn 3: stalled
            up 0 3: moved",
            OFF_THE_WAY,
            "
            up 0 3, serve 0, down 1 0, down 0 2, turn 3: stalled
            up 1 2: moved",
            OFF_THE_WAY,
            "
            up 0 3, up 1 2, down 1 0, down 0 2, turn 3: stalled
            serve 0: served 3",
            OFF_THE_WAY,
            "
            up 0 3, up 1 2, serve 0, down 0 2, turn 3: stalled
            down 1 0: moved",
            OFF_THE_WAY,
            "
            up 0 3, up 1 2, serve 0, down 1 0, turn 3: stalled
            down 0 2: moved",
            OFF_THE_WAY,
            "
            up 0 3, up 1 2, serve 0, down 1 0, down 0 2: stalled
            turn 3: wrote 0x10000 0x00B6252F 10
            idle: yes
            word 0: is 18
            register 3 10: is 10
            pc 3: is 0x10004",
        ],
        order: "turn 3",
        ..ADDS
    },
    // A processor that has stopped takes no turn. It can be poked, and stays stopped.
    Case {
        name: "a processor has halted",
        machine: "machine 2 4 4 1024",
        program: &Program {
            entry: CODE_START,
            code: &[0x0000_0073], // ecall
            local: &[],
            shared: &[],
        },
        pokes: &[],
        calls: &[
            "
            turn 1: halted 0
            idle: yes
            status 1: halted 0",
            TURN_OF_1,
            POKED,
            "
            status 1: halted 0",
            TURN_OF_1,
        ],
        order: "turn 1, poke 1 11 5, poke 1 32 0x10004, poke_local 1 0x20000 0xA5",
    },
    Case {
        name: "a fault has stopped a processor",
        machine: "machine 2 4 4 1024",
        program: &Program {
            entry: CODE_START,
            code: &[0x0010_0073], // ebreak
            local: &[],
            shared: &[],
        },
        pokes: &[],
        calls: &[
            "
            turn 1: faulted 8
            idle: yes
            status 1: faulted 8",
            TURN_OF_1,
            POKED,
            "
            status 1: faulted 8",
            TURN_OF_1,
        ],
        order: "turn 1, poke 1 11 5, poke 1 32 0x10004, poke_local 1 0x20000 0xA5",
    },
    Case {
        name: "pokes of what is no target",
        machine: "machine 2 4 4 6",
        pokes: &["word 0 10"],
        calls: &[NO_TARGETS],
        ..ADDS
    },
    Case {
        name: "pokes at the ends of what can be written",
        machine: "machine 2 4 4 6",
        pokes: &["word 0 0x11223344"],
        calls: &[
            "
            poke 3 1 0xFFFFFFFF, poke 3 31 6, poke 3 32 0xFFFFFFFC, poke 0 12 7, poke_local 3 0x20000 0xA5: poked
            poke_local 3 0x2FFFF 0xA5, poke_shared 0x80000002 0xA5, poke_shared 0x80000017 0xA5: poked
            register 3 1: is 0xFFFFFFFF
            register 3 31: is 6
            pc 3: is 0xFFFFFFFC
            register 0 12: is 7
            register 3 12: is 0
            byte 3 0x20000, byte 3 0x2FFFF: is 0xA5
            byte 3 0x20001: is 0
            word 0: is 0x11A53344
            word 5: is 0xA5000000
            word 4: is 0",
        ],
        order: "
            poke 3 1 0xFFFFFFFF, poke 3 31 6, poke 3 32 0xFFFFFFFC, poke 0 12 7,
            poke_local 3 0x20000 0xA5, poke_local 3 0x2FFFF 0xA5, poke_shared 0x80000002 0xA5,
            poke_shared 0x80000017 0xA5",
        ..ADDS
    },
];
