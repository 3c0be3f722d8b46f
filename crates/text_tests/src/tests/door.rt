//! An output that is opened by its first write.

ghost use Rattle.std.specs.Prelude.{◌≡◌, []};

use command_io::Open;
use std::alloc::Global;
use std::io::{self, ErrorKind};

/// Opens a buffer, or fails, and counts the openings.
#[derive(Drop)]
pub struct LoopbackPort {
    pub alloc: Global,
    pub is_shut: bool,
    pub openings: usize,
}

impl LoopbackPort {
    /// A buffer that is not open yet, or that cannot be opened.
    pub fn new(alloc: Global, is_shut: bool) -> Self {
        LoopbackPort {
            alloc,
            is_shut,
            openings: 0,
        }
    }
}

impl Open for LoopbackPort {
    type Device = Vec<u8>;

    ghost opens = { λ d bytes. bytes.items ≡ [] };

    fn open(&mut self) -> io::Result<Vec<u8>> {
        self.openings = self.openings.saturating_add(1);
        if self.is_shut {
            Err(ErrorKind::PermissionDenied.into())
        } else {
            Ok(Vec::new(self.alloc))
        }
    }
}
