//! A memory module: the words of shared memory that it holds, and how it executes a request.
//!
//! A module executes a whole fetch-and-phi: it returns the word at a place and replaces it by a
//! function of it. Of `n` modules, module `m` has the shared words whose numbers have the remainder
//! `m` when divided by `n`; word `i` is at place `i / n`. A module knows only its places.
#![tactic(auto)]

mod module;

pub use module::Module;
