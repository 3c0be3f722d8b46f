//! An omega network of combining switches, between processors and memory modules.
//!
//! `2^k` processors send requests over `k` stages of switches to `2^k` modules, and the replies come back over the same
//! wires. Messages move one at a time, when a call asks for it: [`Network::up`] offers the first request on a wire to
//! the next switch, where it may be combined with another, and [`Network::down`] takes the first reply on a wire back
//! over a stage, where the records of combinations give the replies for the requests that were combined.
//!
//! Before each stage, and after the last, each wire has a queue of requests and one of replies; the slots of the
//! processors and of the modules are such queues too. All queues are in one pool with a cell for each processor
//! ([`combining_switch::Pool`]), ordered by depth and wire. A switch has its records and the numbers of its queues.
//!
//! A move first asks the switch, then takes the message out of its old place, and then gives it to the switch, so that
//! the cell of its leader is free by then. Before a caller puts in a request or a reply, it can ask whether a message
//! or a record names the leader ([`Network::names`], [`Network::may_reply`]).
//!
//! [`IndexedNetwork`] is a [`Network`] that knows which wires have messages, by a set of wires for each depth. So a
//! move of nothing costs one look at a bit, and a caller that makes all moves of a stage can leave out the wires that
//! have no message. Each call returns what that of the network returns, and leaves the network in the same state.
//!
//! `specs/Networks.antt` defines how the lists of a network are read as a network of places (`Net` of the crate
//! `messages`); each call does what that crate's `Moves.antt` defines on the places. Only making a network allocates
//! memory.
//!
//! Source: the network is that of Gottlieb et al., "The NYU Ultracomputer", IEEE Transactions on Computers C-32(2),
//! 1983.
#![tactic(auto)]

mod indexed_network;
mod network;

pub use indexed_network::IndexedNetwork;
pub use messages::{DownMove, Record, Reply, Request, Seconds, UpMove};
pub use network::Network;
