//! Parts that cases share.

use super::REFERENCES;
use test_support::Case;

/// Four processors are to add 1, 2, 4 and 8 to word 0.
pub const FOUR_ADDS: &str = "
    poke 0 11 1, poke 0 12 0x80000000,
    poke 1 11 2, poke 1 12 0x80000000,
    poke 2 11 4, poke 2 12 0x80000000,
    poke 3 11 8, poke 3 12 0x80000000";

/// Processor 0 is to add 5 to word 0, and processor 2 to swap in 100.
pub const ADD_AND_SWAP: &str = "
    poke 0 11 5, poke 0 12 0x80000000,
    poke 2 11 100, poke 2 12 0x80000000, poke 2 32 0x10004";

/// The case on which most others are based: four adds to a word of 10.
pub const ADDS: Case = Case {
    name: "",
    machine: "machine 2 4 4 1024",
    program: &REFERENCES,
    pokes: &["word 0 10", FOUR_ADDS],
    calls: &[],
    order: "",
};

/// Four processors issue their requests.
pub const FOUR_TURNS: &str = "
    turn 0, turn 1, turn 2, turn 3: issued";

/// Four processors issue their requests. Those of 0 and 2 meet at the first stage, and so do those of 1 and 3.
pub const PAIRS_MEET: &str = "
    turn 0, turn 1, turn 2, turn 3: issued
    up 0 0: moved
    up 0 2: combined 0 2
    up 0 1: moved
    up 0 3: combined 1 3";

/// Four processors issue their requests, and those of 0 and 2 meet at the second stage.
pub const TWO_MEET: &str = "
    turn 0, turn 1, turn 2, turn 3: issued
    up 0 0, up 1 0, up 0 2: moved
    up 1 0: combined 0 2";

/// What each processor has found if the order is 0, 2, 1, 3.
pub const SUMS_OF_PAIRS: &str = "
    idle: yes
    register 0 10: is 10
    register 1 10: is 15
    register 2 10: is 11
    register 3 10: is 17
    word 0: is 25";

/// What each processor has found if the order is 0, 1, 2, 3.
pub const SUMS_IN_ORDER: &str = "
    idle: yes
    register 0 10: is 10
    register 1 10: is 11
    register 2 10: is 13
    register 3 10: is 17
    word 0: is 25";

/// What each processor finds in a word of 0 if the order is 0, 2, 1, 3.
pub const FOUND_0_2_1_3: &str = "
    turn 0: wrote 0x10000 0x00B6252F 0
    turn 1: wrote 0x10000 0x00B6252F 5
    turn 2: wrote 0x10000 0x00B6252F 1
    turn 3: wrote 0x10000 0x00B6252F 7
    word 0: is 15";

/// Processors 0 and 2 issue their requests, and that of 0 is first at the switch where they meet.
pub const ZERO_COMES_FIRST: &str = "
    turn 0, turn 2: issued
    up 0 0: moved
    up 0 2: combined 0 2
    up 1 0: moved
    serve 0: served 0";

/// The same, but the request of 2 is first.
pub const TWO_COMES_FIRST: &str = "
    turn 0, turn 2: issued
    up 0 2: moved
    up 0 0: combined 2 0
    up 1 0: moved
    serve 0: served 2";
