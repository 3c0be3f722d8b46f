//! A machine with the log of its steps, which can lend its cores.
//!
//! The machine of a log is always the replay of its opening over the steps in the log, none of which stalled, and one
//! serial order of whole instructions explains what it did ([`Logged::machine`]). A log that has made room for steps
//! ([`Logged::room`]) takes and enters them without a refusal ([`ReservedLog`]). So a caller that must take either all
//! of its steps or none asks for room first.
//!
//! [`Lending`] is such a log that lends cores. While a core is away, the machine goes on without it. What is said of
//! the log is said as if each core that is away were in its place, as it was lent: other steps do not depend on that
//! core. When a core comes back that has taken local instructions by itself, a turn of its processor is entered for
//! each of them. `specs/Lendings.antt` defines the machine with all cores back.
//!
//! [`replay`] takes the steps of a trace.
#![tactic(auto)]

mod entering;
pub mod laws;
mod lending;
mod lent;
mod log;
mod refusal;
mod replaying;
mod reserved;

pub use entering::enter;
pub use lending::Lending;
pub use lent::Lent;
pub use log::Logged;
pub use refusal::LockRefusal;
pub use replaying::{StalledStep, replay, replay_observed};
pub use reserved::ReservedLog;
