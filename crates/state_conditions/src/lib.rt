//! Conditions on states between references, and properties: what never, always or in the end holds of a program.
//!
//! A condition compares shared words, and counts of processors, with numbers, as `at 0x10010-0x10020 > 1 & word 3 == 0`
//! ([`Condition::of_text`]). Symbols of a file can stand for addresses and for shared words. A condition only counts
//! processors, so it holds of a state exactly if it holds of each exchange of it ([`laws::exchanges_keep_conditions`]).
#![tactic(auto)]

mod condition;
mod holding;
pub mod laws;
mod names;
mod number;
mod part;
mod property;
mod reading;
mod subject;
mod words;
mod wrong;

pub use condition::{Comparison, Condition, Conjunction, Group, ProcessorState, Relation, Subject};
pub use property::{Kind, Property};
pub use wrong::wrong_part;
