//! Tests of the search for every final result (`exploration`), on small programs whose results are counted by hand,
//! and of random runs and their different results (`hunt_command`).
//!
//! They have a crate of their own, so that the crates above the search need not wait for them.
#![tactic(auto)]

#[cfg(test)]
mod tests;
