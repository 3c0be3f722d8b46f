//! A combining switch: two inputs, two outputs, and at each output a queue and a wait buffer.
//!
//! A request that comes to an output is combined with an entry of its queue if possible, and then goes on as part of
//! that entry. A record stays in the output's wait buffer (crate `wait_buffers`). The reply for the entry comes back to
//! the same output, where the record gives the reply for the request that was combined with it.
//!
//! The messages of all switches are in one [`Pool`], which is passed to each call. A message is in the cell of its
//! leader, and each cell names the next cell of its queue. So there are as many cells as processors, close together,
//! and a queue takes three bytes. A processor leads one message at a time, so its cell is free when a message that it
//! leads is queued. Contracts see a pool as the lists of its queues (`specs/Pools.antt`), and say of each call how one
//! list changes. A switch has its records and the numbers of its queues in the pool. A message is taken out of its old
//! place before it is offered to a switch, so its cell is free; before that, the switch is asked whether it will take
//! the message.
//!
//! `specs/Outputs.antt` and `specs/Switches.antt` define what each call does, in terms of the crate `messages`;
//! `specs/Accepting.antt` says case by case what happens to a request. Only [`Pool::new`] allocates memory.
//!
//! Source: the combining switch is that of Gottlieb et al., "The NYU Ultracomputer", IEEE Transactions on Computers
//! C-32(2), 1983.
#![tactic(auto)]

mod answers;
pub mod laws;
mod links;
mod output;
mod pool;
mod switch;

pub use answers::{Accepted, Answered};
pub use messages::{Record, Reply, Request, Seconds};
pub use pool::{MAX_CELLS, Pool};
pub use switch::{MAX_QUEUE, Switch};
