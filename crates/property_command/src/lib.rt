//! `ultra explore` with a property: from the bytes of an image to whether no state between references breaks it.
//!
//! [`property_search::judge`] judges the property. This crate prints the verdict, and for a broken property the
//! processors whose references lead to a state that breaks it. If a trace is asked for,
//! [`counterexample_of`] takes this way on a second machine, and checks that the machine breaks the property, before
//! the steps are written. So the proof that they are a counterexample needs to know nothing about the way.
#![tactic(auto)]

mod command;
mod counterexample;
mod judging;
mod lines;
mod standing;

pub use command::{Asked, property_command};
pub use counterexample::counterexample_of;
