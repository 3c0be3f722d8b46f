//! Whether a property holds of all states between references that a small program can come to.
//!
//! [`judge`] searches as `exploration::explore` does, and looks for the first row whose state breaks the property. A
//! condition only counts processors, so it holds of all states for which a row stands, or of none.
//!
//! `specs/Verdicts.antt` says what a verdict means.
#![tactic(auto)]

mod broken;
mod judging;

pub use judging::{Judged, Verdict, judge};
