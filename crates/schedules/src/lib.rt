//! Schedules: the steps that a machine is asked to take.
//!
//! [`follow_sweep`] follows the sweep, round after round, and enters the steps that do something, until a fault stops a
//! processor, no processor runs, or the budget is used up. Then it drains the machine. [`follow`] does the same but for
//! the drain, for anything that takes steps ([`StepTaker`]), whether it keeps them or not. Both skip steps that find no
//! message, since they would stall: they go through the rows of a round by the kind of their steps ([`Row`]). A caller
//! that may be anywhere in a round gets its steps one at a time ([`Round`]).
//!
//! Each thread has an [`Arbiter`] of its own, which names the step of the network that the thread asks for next.
//! [`Shuffled`] is the program's arbiter: by a generator of numbers, it picks a step from the list of all moves and
//! services of the network. `specs/Choices.antt` defines the list and the generator.
#![tactic(auto)]

mod arbiter;
mod choice;
mod choice_laws;
mod generator;
pub mod laws;
mod round;
mod row;
mod schedule;
mod shuffled;
mod sweeping;
mod taker;

pub use arbiter::Arbiter;
pub use choice::choice_at;
pub use generator::{first_state, next_state};
pub use round::Round;
pub use row::{Downs, Row, Services, Turns, Ups};
pub use schedule::step_at;
pub use shuffled::Shuffled;
pub use sweeping::{MAX_BUDGET, SweepEnd, follow, follow_sweep, is_over, most_steps};
pub use taker::StepTaker;
