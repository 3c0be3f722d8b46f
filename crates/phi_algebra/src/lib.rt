//! The algebra of functions of 32-bit words, for fetch-and-phi.
//!
//! A fetch-and-phi reads a word and replaces it by a function of it, in one indivisible step. A
//! [`Phi`] is such a function as plain data: it can be sent to the word, and two that meet on the
//! way can be composed into one.
//!
//! `specs/Functions.antt` says which function a `Phi` means. No call here allocates memory.
//!
//! Source: Gottlieb et al., "The NYU Ultracomputer", IEEE Transactions on Computers C-32(2), 1983.
#![tactic(auto)]

mod composition;
pub mod laws;
mod phi;
mod range;

pub use composition::compose;
pub use phi::Phi;
pub use range::{SignedRange, UnsignedRange};
