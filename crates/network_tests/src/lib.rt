//! Tests of the network and its parts: wires and sets of them, wait buffers, one switch, all stages, and the network
//! that knows where its messages are.
//!
//! Long random runs compare the network with a plain one, and with one whose switches have rings.
//!
//! The tests are a crate of their own, so that crates above the network need not wait for them.
#![tactic(auto)]

#[cfg(test)]
mod tests;
