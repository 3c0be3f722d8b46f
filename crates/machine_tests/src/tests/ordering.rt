//! The serial order of a list of steps.

use super::pieces::{ADD_AND_SWAP, ADDS, FOUR_ADDS, TWO_COMES_FIRST, ZERO_COMES_FIRST};
use flat_machine::CODE_START;
use std::test::Fail;
use test_support::{Case, Program, check_orders};

#[test]
fn orders_are_listed(rt: HostRuntime) -> Result<(), Fail> {
    check_orders(rt.alloc(), &CASES)
}

/// One local instruction. The word after it is no instruction.
const LOCAL: Program<'static> = Program {
    entry: CODE_START,
    code: &[0x0010_8093], // addi x1, x1, 1
    local: &[],
    shared: &[],
};

static CASES: [Case; 4] = [
    // A group enters the order when it is served, in the order in which its requests came to their switch.
    Case {
        name: "first at the switch goes first",
        pokes: &["word 0 7", ADD_AND_SWAP],
        calls: &[
            ZERO_COMES_FIRST,
            "
            word 0: is 100",
        ],
        order: "turn 0, turn 2",
        ..ADDS
    },
    Case {
        name: "second at the switch goes second",
        pokes: &["word 0 7", ADD_AND_SWAP],
        calls: &[
            TWO_COMES_FIRST,
            "
            word 0: is 105",
        ],
        order: "turn 2, turn 0",
        ..ADDS
    },
    // References that are not combined enter the order as they are served. One that is not served yet is not in the
    // order, and the retirement of one that was served adds nothing.
    Case {
        name: "the order is of the services",
        pokes: &[FOUR_ADDS],
        calls: &[
            "
            turn 0, turn 1, turn 2: issued
            up 0 1, up 1 2: moved
            serve 0: served 1
            down 1 0, up 0 0, up 1 0: moved
            serve 0: served 0
            down 0 2: moved
            turn 1: wrote 0x10000 0x00B6252F 0
            word 0: is 3
            idle: no",
        ],
        order: "turn 1, turn 0",
        ..ADDS
    },
    // A local instruction, a stop and a poke enter the order at their step. A step that stalls does not.
    Case {
        name: "local steps and pokes",
        machine: "machine 2 4 4 1024",
        program: &LOCAL,
        pokes: &[],
        calls: &[
            "
            turn 1: wrote 0x10000 0x00108093 1
            poke 1 11 9: poked
            poke 4 11 9, turn 4: stalled
            turn 0: wrote 0x10000 0x00108093 1
            turn 1: faulted 1
            turn 1, serve 0: stalled",
        ],
        order: "turn 1, poke 1 11 9, turn 0, turn 1",
    },
];
