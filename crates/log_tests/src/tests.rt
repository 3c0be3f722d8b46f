//! Logs, and what builds on them.

mod arbiter;
mod counts;
mod latencies;
mod log;
mod replay;
mod report;
mod sweep;

use std::fmt::Debug;
use std::process::Abort;

/// Fails the test if the two values differ, and prints both and their case ([`assert_same!`]).
fn same<T: PartialEq + Debug, A: Debug>(rt: &impl Abort, found: &T, wanted: &T, at: &A) {
    assert_eq!(rt; found, wanted, "{at:?}");
}
