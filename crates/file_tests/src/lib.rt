//! Tests of links, images, traces and symbol tables: devices that fail at each call in turn, images and traces made by
//! hand, both accepted and refused, and tables made by hand, whole and broken. The devices of `test_support` are tested
//! here too, and how it lends a value.
//!
//! The tests are a crate of their own, so that crates above these parts need not wait for them.
#![tactic(auto)]

#[cfg(test)]
mod tests;
