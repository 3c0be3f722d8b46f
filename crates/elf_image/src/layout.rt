//! The contents of memory when a program starts.

ghost use Rattle.std.specs.Prelude.{◌≡◌, IfOk};

use crate::bytes::Bytes;
use std::alloc::{AllocError, Global};

/// The address where the processors start, and the bytes of each region from its first address on. The rest of a region
/// is zero.
#[derive(Debug, Drop)]
pub struct Layout {
    /// The address of the first instruction.
    pub entry: u32,
    /// The bytes of code, from 0x00010000.
    pub code: Bytes,
    /// The bytes of each processor's local memory, from 0x00020000.
    pub local: Bytes,
    /// The bytes of the shared words, from 0x80000000.
    pub shared: Bytes,
}

impl Layout {
    /// A copy of the layout.
    ///
    /// # Errors
    ///
    /// [`AllocError`] if memory is short.
    pub fn copy(&self, alloc: Global) -> Result<Self, AllocError>
        ensures { IfOk result (λ copy. copy ≡ self.now) }
    {
        Ok(Layout {
            entry: self.entry,
            code: self.code.copy(alloc)?,
            local: self.local.copy(alloc)?,
            shared: self.shared.copy(alloc)?,
        })
    }
}
