//! References whose requests meet in switches, and combine or do not.

use super::pieces::{
    ADD_AND_SWAP, ADDS, FOUND_0_2_1_3, FOUR_ADDS, FOUR_TURNS, PAIRS_MEET, SUMS_OF_PAIRS,
    TWO_COMES_FIRST, TWO_MEET, ZERO_COMES_FIRST,
};
use std::test::Fail;
use test_support::{Case, check_orders};

#[test]
fn requests_meet(rt: HostRuntime) -> Result<(), Fail> {
    check_orders(rt.alloc(), &CASES)
}

static CASES: [Case; 13] = [
    // Two adds combine at each stage, so that one request at the module serves all four.
    Case {
        name: "two adds combine",
        calls: &[
            PAIRS_MEET,
            "
            up 1 0: moved
            up 1 2: combined 0 1
            serve 0: served 0
            down 1 0: answered 1
            down 0 0: answered 2
            down 0 2: answered 3
            idle: no
            turn 0: wrote 0x10000 0x00B6252F 10
            turn 1: wrote 0x10000 0x00B6252F 15
            turn 2: wrote 0x10000 0x00B6252F 11
            turn 3: wrote 0x10000 0x00B6252F 17",
            SUMS_OF_PAIRS,
        ],
        order: "turn 0, turn 2, turn 1, turn 3",
        ..ADDS
    },
    // The request that is first at the switch comes first in the serial order.
    Case {
        name: "the add comes before the swap",
        pokes: &["word 0 7", ADD_AND_SWAP],
        calls: &[
            ZERO_COMES_FIRST,
            "
            down 1 0: moved
            down 0 0: answered 2
            turn 0: wrote 0x10000 0x00B6252F 7
            turn 2: wrote 0x10004 0x08B6252F 12
            word 0: is 100",
        ],
        order: "turn 0, turn 2",
        ..ADDS
    },
    Case {
        name: "the swap comes before the add",
        pokes: &["word 0 7", ADD_AND_SWAP],
        calls: &[
            TWO_COMES_FIRST,
            "
            down 1 0: moved
            down 0 0: answered 0
            turn 0: wrote 0x10000 0x00B6252F 100
            turn 2: wrote 0x10004 0x08B6252F 7
            word 0: is 105",
        ],
        order: "turn 2, turn 0",
        ..ADDS
    },
    // A minimum and an add do not compose. Each goes by itself, and the module serves the second after the reply of the
    // first has left.
    Case {
        name: "a minimum and an add go apart",
        pokes: &[
            "word 0 5",
            "poke 0 11 3, poke 0 12 0x80000000, poke 0 32 0x10008, poke 2 11 1, poke 2 12 0x80000000",
        ],
        calls: &[
            "
            turn 0, turn 2: issued
            up 0 0, up 0 2, up 1 0, up 1 0: moved
            serve 0: served 0
            serve 0: stalled
            down 1 0: moved
            serve 0: served 2
            down 1 0, down 0 0, down 0 0: moved
            turn 0: wrote 0x10008 0x80B6252F 5
            turn 2: wrote 0x10000 0x00B6252F 3
            word 0: is 4",
        ],
        order: "turn 0, turn 2",
        ..ADDS
    },
    // Three requests combine with the first, and its reply is split in four, in the order of the combinations. Each
    // second gets the value that the functions before it give the word.
    Case {
        name: "an entry is combined three times",
        machine: "machine_3 2 4 4 1024",
        pokes: &[FOUR_ADDS],
        calls: &[
            TWO_MEET,
            "
            up 0 1: moved
            up 1 2: combined 0 1
            up 0 3: moved
            up 1 2: combined 0 3
            serve 0: served 0
            down 1 0: answered_three 2 1 3
            down 0 0, down 0 0, down 0 2, down 0 2: moved",
            FOUND_0_2_1_3,
        ],
        order: "turn 0, turn 2, turn 1, turn 3",
        ..ADDS
    },
    // If an entry is combined at most twice, the third request to meet it goes by itself.
    Case {
        name: "an entry is combined twice at most",
        machine: "machine_2 2 4 4 1024",
        pokes: &[FOUR_ADDS],
        calls: &[
            TWO_MEET,
            "
            up 0 1: moved
            up 1 2: combined 0 1
            up 0 3, up 1 2: moved
            serve 0: served 0
            down 1 0: answered_two 2 1
            serve 0: served 3
            down 1 0, down 0 0, down 0 0, down 0 2, down 0 2: moved",
            FOUND_0_2_1_3,
        ],
        order: "turn 0, turn 2, turn 1, turn 3",
        ..ADDS
    },
    // If no record is free, a request goes by itself. With one more record, as in the next case, it is combined.
    Case {
        name: "no record is free",
        machine: "machine 2 4 1 1024",
        pokes: &[FOUR_ADDS],
        calls: &[
            TWO_MEET,
            "
            up 0 1, up 1 2, up 0 3, up 1 2: moved
            word 0: is 0
            serve 0: served 0
            down 1 0: answered 2
            serve 0: served 1
            down 1 0: moved
            serve 0: served 3
            down 1 0, down 0 0, down 0 0, down 0 2, down 0 2: moved",
            FOUND_0_2_1_3,
        ],
        order: "turn 0, turn 2, turn 1, turn 3",
        ..ADDS
    },
    Case {
        name: "a record more is free",
        machine: "machine 2 4 2 1024",
        pokes: &[FOUR_ADDS],
        calls: &[
            TWO_MEET,
            "
            up 0 1, up 1 2, up 0 3: moved
            up 1 2: combined 1 3
            word 0: is 0
            serve 0: served 0
            down 1 0: answered 2
            serve 0: served 1
            down 1 0: answered 3
            down 0 0, down 0 0, down 0 2, down 0 2: moved",
            FOUND_0_2_1_3,
        ],
        order: "turn 0, turn 2, turn 1, turn 3",
        ..ADDS
    },
    // A reply that splits needs two places. If only one is free, it stays.
    Case {
        name: "two places are needed",
        machine: "machine 3 2 1 1024",
        pokes: &[
            "
                poke 0 11 1, poke 0 12 0x80000000, poke 2 11 2, poke 2 12 0x80000000, poke 4 11 4,
                poke 4 12 0x80000004",
        ],
        calls: &[
            "
            turn 0, turn 2, turn 4: issued
            up 0 4, up 1 0, up 2 0: moved
            serve 1: served 4
            down 2 1, up 0 0, up 1 0, up 2 0, up 0 2, up 1 4: moved
            up 2 0: combined 0 2
            serve 0: served 0
            down 2 0: stalled
            down 1 0: moved
            down 2 0: answered 2
            word 0: is 3
            word 1: is 4",
        ],
        order: "turn 4, turn 0, turn 2",
        ..ADDS
    },
    // Two stores of bytes combine, and neither undoes the other.
    Case {
        name: "two stores of bytes to one word",
        pokes: &[
            "word 0 0x11223344",
            "
                poke 0 11 0xAA, poke 0 12 0x80000000, poke 0 32 0x1000C, poke 2 11 0xBB,
                poke 2 12 0x80000000, poke 2 32 0x10010",
        ],
        calls: &[
            ZERO_COMES_FIRST,
            "
            down 1 0: moved
            down 0 0: answered 2
            turn 0: retired 0x1000C 0x00B60023
            turn 2: retired 0x10010 0x00B601A3
            word 0: is 0xBB2233AA",
        ],
        order: "turn 0, turn 2",
        ..ADDS
    },
    // Without records each request is served by itself.
    Case {
        name: "no combining",
        machine: "machine 2 4 0 1024",
        calls: &[
            FOUR_TURNS,
            "
            up 0 0, up 0 2, up 0 1, up 0 3, up 1 0, up 1 2, up 1 0, up 1 2: moved
            serve 0: served 0
            down 1 0: moved
            serve 0: served 1
            down 1 0: moved
            serve 0: served 2
            down 1 0: moved
            serve 0: served 3
            down 1 0, down 0 0, down 0 0, down 0 2, down 0 2: moved
            turn 0: wrote 0x10000 0x00B6252F 10
            turn 1: wrote 0x10000 0x00B6252F 11
            turn 2: wrote 0x10000 0x00B6252F 13
            turn 3: wrote 0x10000 0x00B6252F 17
            word 0: is 25",
        ],
        order: "turn 0, turn 1, turn 2, turn 3",
        ..ADDS
    },
    // A queue of two places takes no third request.
    Case {
        name: "the queue is full",
        machine: "machine 2 2 0 1024",
        calls: &[
            FOUR_TURNS,
            "
            up 0 0, up 0 2, up 0 1, up 0 3, up 1 0, up 1 2: moved
            up 1 0: stalled
            serve 0: served 0
            up 1 0: moved",
        ],
        order: "turn 0",
        ..ADDS
    },
    // The requests of both processors of a machine of one stage combine at its one switch.
    Case {
        name: "one stage",
        machine: "machine 1 4 4 1024",
        pokes: &[
            "word 0 1",
            "poke 0 11 2, poke 0 12 0x80000000, poke 1 11 3, poke 1 12 0x80000000",
        ],
        calls: &[
            "
            turn 1, turn 0: issued
            up 0 1: moved
            up 0 0: combined 1 0
            serve 0: served 1
            down 0 0: answered 0
            turn 0: wrote 0x10000 0x00B6252F 4
            turn 1: wrote 0x10000 0x00B6252F 1
            word 0: is 6",
        ],
        order: "turn 1, turn 0",
        ..ADDS
    },
];
