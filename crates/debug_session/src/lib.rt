//! A debugger's session: it reads lines of commands from a link, executes them on a machine, and replies to each with a
//! line.
//!
//! `specs/Answers.antt` says what each command does and which reply it gets, on the flat machine that the session's
//! machine is. `specs/Dialogues.antt` says the same of all events of a stream, and `specs/Conversations.antt` says what
//! a session reads and writes. [`serve`] is such a session.
//!
//! A [`Runner`] executes the command to go on: it takes steps of the machine, none of them a poke, after which no
//! reference is open. [`Sweep`] follows the sweep (`schedules`), and ends before an instruction at a break.
//!
//! [`debug_command`] is `ultra debug`, over any link: it reads the image, opens the machine on it, and only then asks
//! for a link ([`Connect`], which may listen at a port of this host, [`loopback`], and report that, [`announce`]).
//! After the session it writes the trace of the steps, if one is asked for. [`debug_end`] reports how a session ended.
#![tactic(auto)]

mod acting;
mod answering;
mod command;
mod connect;
mod end;
pub mod laws;
mod listening;
mod runner;
mod saving;
mod serving;
mod session_end;
mod sweep;

pub use command::debug_command;
pub use connect::Connect;
pub use debug_replies::Breaks;
pub use end::debug_end;
pub use listening::{announce, loopback};
pub use runner::Runner;
pub use serving::serve;
pub use session_end::SessionEnd;
pub use sweep::Sweep;
