//! An omega network of combining switches whose queues are rings. It is a second implementation of the network, to
//! compare with the program's (`omega_network`).
//!
//! The crate `messages` defines what happens to a message, and the contracts use the same definitions as those of
//! `omega_network` and `combining_switch`; the wait buffers are those of `wait_buffers`. Only the places where messages
//! are kept differ. Contracts see a network by `net_of` in `specs/Networks.antt`, as the messages and records at each
//! place. [`Network::new`] makes all the room: no other call allocates memory.
//!
//! Source: the network is that of Gottlieb et al., "The NYU Ultracomputer", IEEE Transactions on Computers C-32(2),
//! 1983.
#![tactic(auto)]

mod network;
mod output;
mod replies;
mod switch;

pub use network::Network;
pub use switch::Switch;
