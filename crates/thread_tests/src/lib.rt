//! Tests of what runs on threads: consoles, the rounds of the processors, and whole runs.
//!
//! They have a crate of their own, so that the crates above these parts need not wait for them.
#![tactic(auto)]

#[cfg(test)]
mod tests;
