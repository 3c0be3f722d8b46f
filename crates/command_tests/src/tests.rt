//! Images are assembled from texts. Expected values are worked out by hand from the RISC-V manual, the schedule and
//! what each step does.

mod exploring;
mod running;
mod studying;
mod words;

use std::fmt::Debug;
use std::process::Abort;

/// Fails the test if the two values differ, and prints both and their case ([`assert_same!`]).
fn same<T: PartialEq + Debug, A: Debug>(rt: &impl Abort, found: &T, wanted: &T, at: &A) {
    assert_eq!(rt; found, wanted, "{at:?}");
}
