//! A table of rows. One authority knows them all, each fragment knows one, and the two always agree.
//!
//! A thread that holds a [`Fragment`] and the [`Authority`] knows that the fragment's row is the authority's, and may
//! write it ([`Authority::write`]). So a lock that keeps the authority knows what each part of a program stores by
//! itself. This is the authoritative ghost map of Iris. At run time only one word of it is left: the rows exist in
//! proofs alone. `specs/Rows.antt` has the rule.
#![tactic(auto)]

mod authority;
mod rule;

pub use authority::{Authority, Fragment, NewTable};
pub use rule::{Naming, Next, View};
