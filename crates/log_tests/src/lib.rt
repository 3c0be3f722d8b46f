//! Tests of the log, of sweeps and replays over it, of counts and reports of them, and of the program's arbiter.
//!
//! The tests are a crate of their own, so that crates above these parts need not wait for them.
#![tactic(auto)]

#[cfg(test)]
mod tests;
