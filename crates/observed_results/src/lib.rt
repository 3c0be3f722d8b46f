//! Final results as they are printed, whole or by chosen shared words.
//!
//! A list such as `0-3,8` names a set of shared words ([`ObservedWords`]). A result that is observed by such a set has
//! only these words. So results that differ in other words have one *observed part*. [`results_text`] makes the lines
//! of results, and [`parts_text`] those of their different observed parts. [`observed_text`] also makes the lines of
//! the parts of those results that satisfy a condition, and [`comparison_text`] those of the parts that the results of
//! another program lack.
#![tactic(auto)]

mod classes;
mod comparison;
mod filter;
mod items;
pub mod laws;
mod lines;
mod observed;
mod outcome;
mod parts;

pub use comparison::comparison_text;
pub use filter::observed_text;
pub use lines::{push_count, push_schedules, results_text};
pub use observed::ObservedWords;
pub use parts::{Parts, count_of, parts_of, parts_text};
