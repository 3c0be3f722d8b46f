//! Drains: how many steps they take, and which step comes next.

use super::pieces::{ADDS, FOUR_TURNS, PAIRS_MEET, SUMS_IN_ORDER, SUMS_OF_PAIRS};
use std::test::Fail;
use test_support::{Case, check};

#[test]
fn machines_drain(rt: HostRuntime) -> Result<(), Fail> {
    check(rt.alloc(), &CASES)
}

static CASES: [Case; 7] = [
    // If no request has moved, each goes to the module and back by itself. A drain of four references takes no more
    // steps than that.
    Case {
        name: "all that is open drains by steps",
        calls: &[
            FOUR_TURNS,
            "
            drain_by_steps: is 24",
            SUMS_IN_ORDER,
        ],
        order: "turn 0, turn 1, turn 2, turn 3",
        ..ADDS
    },
    Case {
        name: "all that is open drains at once",
        calls: &[
            FOUR_TURNS,
            "
            idle: no
            drain: is 24",
            SUMS_IN_ORDER,
        ],
        ..ADDS
    },
    // If two pairs have combined at the first stage, half as many steps are enough.
    Case {
        name: "pairs drain by steps",
        calls: &[
            PAIRS_MEET,
            "
            drain_by_steps: is 12",
            SUMS_OF_PAIRS,
        ],
        order: "turn 0, turn 2, turn 1, turn 3",
        ..ADDS
    },
    Case {
        name: "pairs drain at once",
        calls: &[
            PAIRS_MEET,
            "
            idle: no
            drain: is 12",
            SUMS_OF_PAIRS,
        ],
        ..ADDS
    },
    // An idle machine drains in no step. One reference goes through two stages and back in six steps, the last of them
    // its turn.
    Case {
        name: "an idle machine, and one reference",
        calls: &[
            "
            next: none
            drain, register 0 10, register 1 10, register 2 10, register 3 10: is 0
            word 0: is 10
            turn 2: issued
            next: up 0 2
            drain: is 6
            next: none
            register 0 10, register 1 10: is 0
            register 2 10: is 10
            register 3 10: is 0
            word 0: is 14
            pc 2: is 0x10004
            pc 0: is 0x10000",
        ],
        ..ADDS
    },
    // A drain moves a reply before a request, and of two replies or requests the one that is nearer to its end.
    Case {
        name: "nearest first",
        machine: "machine 2 4 0 1024",
        calls: &[
            "
            turn 0: issued
            up 0 0, up 1 0: moved
            serve 0: served 0
            turn 1: issued
            up 0 1, up 1 2: moved
            turn 2: issued
            next: down 1 0
            down 1 0: moved
            next: down 0 0
            down 0 0: moved
            next: turn 0
            turn 0: wrote 0x10000 0x00B6252F 10
            next: serve 0
            serve 0: served 1
            next: down 1 0
            down 1 0: moved
            next: down 0 2
            down 0 2: moved
            next: turn 1
            turn 1: wrote 0x10000 0x00B6252F 11
            next: up 0 2
            up 0 2: moved
            next: up 1 0
            up 1 0: moved
            next: serve 0
            serve 0: served 2
            next: down 1 0
            down 1 0: moved
            next: down 0 0
            down 0 0: moved
            next: turn 2
            turn 2: wrote 0x10000 0x00B6252F 13
            next: none
            word 0: is 17",
        ],
        order: "turn 0, turn 1, turn 2",
        ..ADDS
    },
    // A drain leaves alone processors that have stopped, and those that run and have no open reference.
    Case {
        name: "stopped processors stay stopped",
        pokes: &["word 0 1", "poke 3 11 1, poke 3 12 0x80000000"],
        calls: &[
            "
            poke 0 32 0x20000: poked
            turn 0, status 0: faulted 2
            drain: is 0
            turn 3: issued
            drain: is 6
            status 0: faulted 2
            word 0: is 2",
        ],
        order: "poke 0 32 0x20000, turn 0",
        ..ADDS
    },
];
