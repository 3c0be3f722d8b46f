//! From single words to the commands of the program. What instructions do is taken from the RISC-V manual; all other
//! values are worked out by hand.

mod commands;
mod consoles;
mod cores;
mod faults;
mod images;
mod instructions;
mod lines;
mod logs;
mod machines;
mod network;
mod passes;
mod sessions;
mod texts;
mod threads;
mod traces;

use std::fmt::Debug;
use std::process::Abort;

/// Fails the test if the two differ, and prints both and their case ([`assert_same!`]).
fn same<T: PartialEq + Debug, A: Debug>(rt: &impl Abort, found: &T, wanted: &T, at: &A) {
    assert_eq!(rt; found, wanted, "{at:?}");
}
