//! The memories that a processor reaches without a message: its own local memory, and the code that all processors
//! share.
//!
//! The model of each is the list of its 65,536 bytes. An access reads or writes one, two or four bytes as a
//! little-endian number. [`Local::copy`] and [`Local::copy_from`] copy a memory up to the last byte that was written;
//! [`SavedLocal::new`] and [`SavedLocal::restore`] copy it up to the last byte that is not zero.
#![tactic(auto)]

mod bytes;
mod code;
mod local;
mod saved;

pub use code::Code;
pub use flat_machine::{Fault, Size};
pub use local::Local;
pub use saved::SavedLocal;
