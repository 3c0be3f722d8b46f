//! The steps that a machine is asked to take, and their outcomes.
//!
//! A step is one event of the machine: a processor's turn, one move of one message through one switch, one service by
//! one memory module, or a write from outside. Each step is taken whole. The crate `machine_steps` says what each of
//! them does.
//!
//! `specs/Answered.antt` pairs a step with its outcome. A machine reports each step that it takes to a
//! [`StepObserver`]. `specs/Groups.antt` says for which processors the request of a leader stands; [`Groups`] keeps
//! these groups from step to step.
#![tactic(auto)]

mod group;
mod groups;
pub mod laws;
mod observer;
mod step;

pub use groups::Groups;
pub use observer::{NoObserver, StepObserver};
pub use step::{MAX_STEPS, Outcome, Step};
