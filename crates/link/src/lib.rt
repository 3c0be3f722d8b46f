//! Devices whose failures last, and calls that read from them and write to them.
//!
//! A [`Link`] records whether a call on it has failed. Its reads and writes ([`LinkRead::receive`],
//! [`LinkWrite::send`]) return an error exactly if one has. The calls that move more than one piece
//! do so exactly if the link fails in the call: they read all that a reader has ([`read_within`]),
//! fill a buffer ([`fill`]), or write a whole text ([`write_whole`]). [`Meter`] makes a link of any
//! reader or writer. A text may be written in parts, by a law ([`parts_make_a_beginning`]).
//!
//! The contracts state which bytes are read or written if a device has a model of its bytes, as a
//! buffer in memory does. For a device without one, such as a socket, they say that there are such
//! bytes.
#![tactic(auto)]

mod device;
pub mod laws;
mod meter;
mod transfer;

pub use device::{Failed, Link, LinkRead, LinkWrite};
pub use meter::Meter;
pub use transfer::{PIECE_BYTES, ReadError, fill, read_within, write_whole};
