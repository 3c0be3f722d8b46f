//! The order of the processors in a result.

use super::texts::{
    BREAK_BEFORE, BREAK_BEHIND, DRAWS, DRAWS_BACK, NO_ADDRESS, PRINTS, PRINTS_AND_HALTS,
    PRINTS_OFTEN, SIDES, UNKNOWN_CALL,
};
use super::{each, exchanged, found, reported};
use std::alloc::Global;
use std::test::Fail;
use test_support::assert_same;

/// The only result up to exchanges of a text on 2^k processors, as lines.
fn only_result(alloc: Global, text: &str, k: u8) -> Result<String, Fail> {
    let found = found(alloc, text, k, exchanged(1000))?;
    match found.results.as_slice() {
        [last] => reported(alloc, last),
        results => Err(Fail::new(format_args!("{text}: {} results", results.len()))),
    }
}

/// Processors are sorted by `pc`, then by status (halts by their byte, and after them faults by their number), then by
/// console.
#[test]
fn processors_are_in_order(rt: HostRuntime) -> Result<(), Fail> {
    for (text, k, lines) in [
        (DRAWS, 1, "10014 Halted(0) []\n10014 Halted(9) []\n"),
        (DRAWS_BACK, 1, "10018 Halted(54) []\n10018 Halted(63) []\n"),
        (
            DRAWS_BACK,
            2,
            "10018 Halted(36) []\n10018 Halted(45) []\n10018 Halted(54) []\n10018 Halted(63) []\n",
        ),
        (
            UNKNOWN_CALL,
            1,
            "10014 Halted(0) []\n10014 Faulted(UnknownCall) []\n",
        ),
        (
            UNKNOWN_CALL,
            2,
            "10014 Halted(0) []\n10014 Halted(0) []\n10014 Halted(0) []\n10014 Faulted(UnknownCall) []\n",
        ),
        (
            BREAK_BEHIND,
            1,
            "10010 Halted(0) []\n10014 Faulted(Breakpoint) []\n",
        ),
        (
            BREAK_BEFORE,
            1,
            "10010 Faulted(Breakpoint) []\n10014 Halted(0) []\n",
        ),
        (
            NO_ADDRESS,
            1,
            "1000c Faulted(AddressNotAligned) []\n1000c Faulted(NoRegion) []\n",
        ),
        (PRINTS, 1, "10024 Halted(0) [127]\n10024 Halted(0) [128]\n"),
        (
            PRINTS_AND_HALTS,
            1,
            "10024 Halted(0) [3]\n10024 Halted(1) [2]\n",
        ),
        (
            PRINTS_OFTEN,
            2,
            "10034 Halted(0) []\n10034 Halted(0) [65]\n10034 Halted(0) [65, 65]\n10034 Halted(0) [65, 65, 65]\n",
        ),
    ] {
        assert_same!(rt; only_result(rt.alloc(), text, k)?.as_str(), lines, text);
    }
    Ok(())
}

/// Each class keeps its places: here 0 and 2 are of one class, and 1 and 3 of the other. Each class has two of the four
/// numbers, the smaller one first.
#[test]
fn processors_are_in_order_in_their_classes(rt: HostRuntime) -> Result<(), Fail> {
    let found = found(rt.alloc(), SIDES, 2, exchanged(1000))?;
    assert_same!(rt; found.results.len(), 6);
    let mut met = 0;
    for last in found.results.iter() {
        let lines = reported(rt.alloc(), last)?;
        for (number, wanted) in [
            "1002c Halted(0) []\n1002c Halted(82) []\n1002c Halted(9) []\n1002c Halted(91) []\n",
            "1002c Halted(0) []\n1002c Halted(73) []\n1002c Halted(18) []\n1002c Halted(91) []\n",
            "1002c Halted(0) []\n1002c Halted(73) []\n1002c Halted(27) []\n1002c Halted(82) []\n",
            "1002c Halted(9) []\n1002c Halted(64) []\n1002c Halted(18) []\n1002c Halted(91) []\n",
            "1002c Halted(9) []\n1002c Halted(64) []\n1002c Halted(27) []\n1002c Halted(82) []\n",
            "1002c Halted(18) []\n1002c Halted(64) []\n1002c Halted(27) []\n1002c Halted(73) []\n",
        ]
        .iter()
        .enumerate()
        {
            if lines.as_str() == *wanted {
                met |= 1 << number;
            }
        }
    }
    assert_same!(rt; met, 0b111111);
    Ok(())
}

/// Processors that are not exchanged are in the order of their numbers: either can draw first.
#[test]
fn processors_are_by_their_numbers(rt: HostRuntime) -> Result<(), Fail> {
    let found = found(rt.alloc(), DRAWS, 1, each(1000))?;
    let wanted = [
        "10014 Halted(0) []\n10014 Halted(9) []\n",
        "10014 Halted(9) []\n10014 Halted(0) []\n",
    ];
    assert_same!(rt; found.results.len(), 2);
    for (last, lines) in found.results.iter().zip(wanted) {
        assert_same!(rt; reported(rt.alloc(), last)?.as_str(), lines);
    }
    Ok(())
}
