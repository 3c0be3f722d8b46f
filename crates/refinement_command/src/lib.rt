//! `ultra explore FILE --against SPEC`: whether a program refines another, its specification.
//!
//! A program refines its specification if each of its results has the outcome of a result of the specification. An
//! outcome is what is observed of a result: how each processor stopped, what it printed, and chosen shared words. The
//! crate `exploration` finds all results of both, without exchanges, and `observed_results` makes the lines of those
//! that are missing in the specification.
#![tactic(auto)]

mod command;
mod searching;

pub use command::refinement_command;
