//! Tests of the debugger: lines, replies, sweeps with breaks, sessions and the command.
//!
//! They have a crate of their own, so that the crates above these parts need not wait for them.
#![tactic(auto)]

#[cfg(test)]
mod tests;
