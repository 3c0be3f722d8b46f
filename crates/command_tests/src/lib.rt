//! Tests of the commands that run and explore programs and replay traces, from the bytes of files to the bytes of a
//! report.
//!
//! The tests are a crate of their own, so that crates above the commands need not wait for them.
#![tactic(auto)]

#[cfg(test)]
mod tests;
