//! Tests of the settings that command lines ask for.
//!
//! The tests are a crate of their own, so that crates above the settings need not wait for them.
#![tactic(auto)]

#[cfg(test)]
mod tests;
