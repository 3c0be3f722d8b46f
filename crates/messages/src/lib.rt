//! The messages of an omega network that combines, and the network as data.
//!
//! A processor's reference to a shared word travels as a [`Request`] through the stages of switches to the module that
//! has the word, and comes back as a [`Reply`]. If two requests for one word meet in a queue, they become one, and a
//! [`Record`] is kept to split the reply.
//!
//! The definitions are in `specs/`: what an output of a switch does with a request and with a reply (`Queues.antt`),
//! what is at each place of a network (`Network.antt`), and what each move of a message does (`Moves.antt`). The crates
//! above have the code for queues and buffers, and cite these definitions in their contracts.
//!
//! Source: the idea of combining is that of Gottlieb et al., "The NYU Ultracomputer", IEEE Transactions on Computers
//! C-32(2), 1983. The wiring, the records and the moves are this project's own.
#![tactic(auto)]

pub mod laws;
mod message;
mod moves;
mod seconds;

pub use message::{Record, Reply, Request};
pub use moves::{DownMove, UpMove};
pub use seconds::Seconds;
