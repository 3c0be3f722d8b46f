//! A saved local memory.

ghost use Rattle.std.specs.Prelude.{◌≡◌, ◌↔◌, IfOk, IsTrue};
ghost use Rattle.local_memory.specs.Accesses.{region_of_bytes};

use crate::bytes::are_equal;
use crate::local::Local;
use std::alloc::AllocError;
use std::marker::Model;

/// A saved local memory. It stores only the bytes up to the last one that is not zero, and cannot be read or written by
/// address.
#[derive(Drop)]
pub struct SavedLocal {
    used: Vec<u8>,
}

impl Model for SavedLocal {
    ghost use Rattle.std.specs.Prelude.{◌≤◌, ℕ, ◌^◌, List, vec_len};
    ghost use Rattle.local_memory.specs.Accesses.{region_of_bytes};

    ghost Value = { List ℕ };

    ghost view = { λ s. region_of_bytes s.used.items };

    ghost invariant = { λ s. vec_len s.used ≤ 2 ^ 16 };
}

impl SavedLocal {
    /// Saves a local memory.
    pub fn new(local: &Local) -> Result<Self, AllocError>
        ensures { IfOk result (λ saved. saved ≡ local.now) }
    {
        Ok(SavedLocal {
            used: local.used_bytes()?,
        })
    }

    /// Returns the local memory that was saved.
    pub fn restore(&self) -> Result<Local, AllocError>
        ensures { IfOk result (λ local. local ≡ self.now) }
    {
        Local::new(*self.used.allocator(), self.used.as_slice())
    }

    /// Returns whether both have the same bytes.
    pub fn equals(&self, other: &Self) -> bool
        ensures { IsTrue result ↔ (self.now ≡ other.now) }
    {
        are_equal(self.used.as_slice(), other.used.as_slice())
    }

    /// The bytes that are stored. All bytes after them are zero.
    pub fn stored_bytes(&self) -> &[u8]
        ensures { region_of_bytes result.now ≡ self.now }
    {
        self.used.as_slice()
    }
}
