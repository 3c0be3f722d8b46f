//! Tests that use every call of the public interface once, each through the crate that offers it to callers. So they no
//! longer compile if that crate does not export it.
//!
//! They have a crate of their own, which uses none of the crates below those that it tests.
#![tactic(auto)]

#[cfg(test)]
mod tests;
