//! Devices of tests, links, the files that are read and written through them, and symbol tables.

mod devices;
mod images;
mod links;
mod memory;
mod symbols;
mod traces;

use std::fmt::Debug;
use std::process::Abort;

/// Fails the test if the two values differ, and prints both and their case ([`assert_same!`]).
fn same<T: PartialEq + Debug, A: Debug>(rt: &impl Abort, found: &T, wanted: &T, at: &A) {
    assert_eq!(rt; found, wanted, "{at:?}");
}
