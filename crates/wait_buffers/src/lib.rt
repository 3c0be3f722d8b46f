//! Wait buffers: the records that one output of a combining switch keeps of its combinations.
//!
//! A record says which request was combined with which, and what the second's reply will be. It stays in the buffer
//! until the reply for both comes back. `specs/Waiting.antt` defines a buffer as contracts see it. No call allocates
//! memory.
//!
//! Source: the wait buffer is that of Gottlieb et al., "The NYU Ultracomputer", IEEE Transactions on Computers
//! C-32(2), 1983.
#![tactic(auto)]

mod wait_buffer;

pub use messages::Record;
pub use wait_buffer::{MAX_RECORDS, WaitBuffer};
