//! The schedules of random runs.
//!
//! A run has a number. That number, a [`Strategy`] and the size of the machine determine its [`Schedule`]: the steps
//! that it asks for, one after another (`specs/Schedules.antt`). A schedule is turns of processors, and after some of
//! them each move and service of the network.
//!
//! [`Strategy::Pct`] takes turns by priorities. Its *epochs* (`specs/Epochs.antt`) are the schedules of probabilistic
//! concurrency testing, of as many turns as all processors have together, one epoch after another.
//!
//! Source: Burckhardt, Kothari, Musuvathi, Nagarakatte, "A randomized scheduler with probabilistic guarantees of finding
//! bugs", ASPLOS 2010.
#![tactic(auto)]

mod course;
mod epoch;
pub mod laws;
mod schedule;
mod strategy;

pub use course::Course;
pub use epoch::{Epoch, Segment};
pub use schedule::Schedule;
pub use strategy::Strategy;
