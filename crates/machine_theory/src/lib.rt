//! The theorem for the flat machine's processors: one serial order of whole instructions explains any steps that a
//! machine takes.
//!
//! `specs/Processors.antt` makes a program of the theory's machine (crate `serialization`) out of the flat machine's
//! turns, events, faults and pokes. `specs/Steps.antt` defines the machine step in these terms for the code of the
//! whole machine, and for each kind of step a lemma shows that the code takes that step. `specs/Explained.antt` says
//! what holds of every run, at every moment.
//!
//! `specs/Loans.antt` says why a core may be away from its machine: a processor without an open reference can take
//! local instructions by itself, and enter its turns when it comes back.
//!
//! The crate has no code that runs. Its laws are the contracts of functions that do nothing.
#![tactic(auto)]

pub mod laws;
mod loan_laws;
