//! `ultra explain [CODE]..`: what a code that `ultra` prints means, what usually causes it and what to do.
//!
//! [`all_topics`] has all topics: what follows `ultra: ` on standard error, the numbers of the faults in a report, the
//! errors of the debugger, and pages of help.
#![tactic(auto)]

mod asking;
mod codes;
mod command;
mod ends;
mod faults;
mod pages;
mod replies;
mod texts;
mod topic;
mod topics;

pub use command::explain_command;
pub use topic::{Topic, Topics};
pub use topics::all_topics;
