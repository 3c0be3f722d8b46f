//! Expected values come from the RISC-V manual, or are worked out by hand.

mod decoding;
mod functions;
mod local_instructions;
mod memory;
mod opening;
mod operations;
mod ports;
mod tables;
mod turns;

use std::fmt::Debug;
use std::process::Abort;

/// Fails the test if the two values differ, and prints both and their case ([`assert_same!`]).
fn same<T: PartialEq + Debug, A: Debug>(rt: &impl Abort, found: &T, wanted: &T, at: &A) {
    assert_eq!(rt; found, wanted, "{at:?}");
}
