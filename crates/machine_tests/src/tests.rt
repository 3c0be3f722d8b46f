//! The machine on small programs. Words of instructions and their results come from the RISC-V manual, and all other
//! values are worked out by hand. Most tests are tables of cases (`test_support`).

mod beside_a_plain_machine;
mod combining;
mod draining;
mod kinds;
mod limits;
mod opening;
mod ordering;
mod pieces;
mod stalling;
mod whole;

use flat_machine::CODE_START;
use std::fmt::Debug;
use std::process::Abort;
use test_support::Program;

/// Fails the test if the two values differ, and prints both and their case ([`assert_same!`]).
fn same<T: PartialEq + Debug, A: Debug>(rt: &impl Abort, found: &T, wanted: &T, at: &A) {
    assert_eq!(rt; found, wanted, "{at:?}");
}

/// The program of most tests. Each of its instructions refers to the shared word at `a2`.
const REFERENCES: Program<'static> = Program {
    entry: CODE_START,
    code: &[
        0x00B6_252F, // amoadd.w a0, a1, (a2)
        0x08B6_252F, // amoswap.w a0, a1, (a2)
        0x80B6_252F, // amomin.w a0, a1, (a2)
        0x00B6_0023, // sb a1, 0(a2)
        0x00B6_01A3, // sb a1, 3(a2)
    ],
    local: &[],
    shared: &[],
};
