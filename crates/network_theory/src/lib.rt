//! Where the messages of a combining network are, and what they stand for.
//!
//! A reference is at one place at a time: as a request, as a reply, or as the second of a record in a switch.
//! `specs/Roles.antt` says so with a role for each processor. A request stands for its leader's group: the references
//! that were combined into it. `specs/Meaning.antt` says what that means: the request's function is the composition of
//! the group's functions, and a reply to it gives each processor what it finds if they refer one after another.
//! `specs/Changes.antt` says what combining, answering and serving do to places and meanings. `specs/Paths.antt` says
//! that messages keep to their paths.
//!
//! The crate has no code that runs. Its theorems are the contracts of functions that do nothing.
#![tactic(auto)]

pub mod laws;
mod path_laws;
