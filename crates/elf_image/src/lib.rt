//! Images of programs: what is at which address when a machine starts.
//!
//! An image file is a little-endian ELF32 executable for RISC-V. [`read_image`] reads one, and refuses with a numbered
//! error what a configuration does not accept; [`write_image`] writes the one spelling of a [`Layout`]. `specs/`
//! defines which bytes are accepted, which refusal comes first, and what the bytes mean, in terms of the addresses that
//! segments set; the code compares and copies ranges. `specs/Openings.antt` defines how a machine opens on a layout.
//!
//! The laws (`image_laws`): the refusals refuse exactly what is not accepted, each for its cause. A file means at most
//! one layout. A machine that opens on a layout has at each address what the layout has there, and so what the file
//! has. A layout that is written is read back unchanged.
//!
//! Source: System V Application Binary Interface, "Object Files" (ELF header) and "Program Loading and Dynamic Linking"
//! (program header); the RISC-V ELF psABI for the machine number. The definitions use the field names of these
//! documents.
#![tactic(auto)]

mod bytes;
mod error;
mod header;
mod image;
mod image_laws;
pub mod laws;
mod layout;
mod load;
mod read;
mod region;
mod segment;
mod write;

pub use bytes::Bytes;
pub use error::ImageError;
pub use flat_machine::Config;
pub use image::Image;
pub use layout::Layout;
pub use link::{Link, LinkRead, LinkWrite, Meter};
pub use read::{MAX_IMAGE_BYTES, read_image};
pub use write::write_image;
