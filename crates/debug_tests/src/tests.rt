//! From single lines to whole sessions.

mod command;
mod lines;
mod replies;
mod session;
mod sweep;

use std::fmt::Debug;
use std::process::Abort;

/// Fails the test if the two differ, and prints both and their case ([`assert_same!`]).
fn same<T: PartialEq + Debug, A: Debug>(rt: &impl Abort, found: &T, wanted: &T, at: &A) {
    assert_eq!(rt; found, wanted, "{at:?}");
}
