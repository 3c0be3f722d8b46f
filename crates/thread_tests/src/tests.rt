//! From single bytes to the reports of runs.

mod cancelled;
mod consoles;
mod listed;
mod loans;
mod passes;
mod refusals;
mod rounds;
mod runs;
mod stray;
mod together;
mod trials;

use std::fmt::Debug;
use std::process::Abort;

/// Fails the test if the two differ, and prints both and their case ([`assert_same!`]).
fn same<T: PartialEq + Debug, A: Debug>(rt: &impl Abort, found: &T, wanted: &T, at: &A) {
    assert_eq!(rt; found, wanted, "{at:?}");
}
