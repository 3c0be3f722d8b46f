//! A processor's local memory.

ghost use Rattle.std.specs.Prelude.{◌≡◌, ◌↔◌, ◌<◌, ◌≤◌, ◌^◌, ◌*◌, ◌+◌, ◌%◌, length, IfOk, IsTrue, OnOk, OnErr, vec_len};
ghost use Rattle.flat_machine.specs.Memory.{in_local, number_at, with_number};
ghost use Rattle.flat_machine.specs.Sizes.{bytes_of};
ghost use Rattle.local_memory.specs.Accesses.{access_of, load_of, region_of_bytes};

use crate::bytes::RegionBytes;
use flat_machine::{Fault, LOCAL_START, REGION_BYTES, Size};
use std::alloc::{AllocError, Global};
use std::marker::Model;

/// The local memory of one processor, as its bytes from [`LOCAL_START`].
#[derive(Drop)]
pub struct Local {
    bytes: RegionBytes,
}

impl Model for Local {
    ghost use Rattle.std.specs.Prelude.{ℕ, List};

    ghost Value = { List ℕ };

    ghost view = { λ l. l.bytes };
}

impl Local {
    /// A memory that begins with these bytes; the rest is zero.
    pub fn new(alloc: Global, bytes: &[u8]) -> Result<Self, AllocError>
        requires { length bytes.now ≤ 2 ^ 16 }
        ensures { IfOk result (λ l. l ≡ region_of_bytes bytes.now) }
    {
        Ok(Local {
            bytes: RegionBytes::new(alloc, bytes)?,
        })
    }

    /// Returns a memory with the same bytes.
    pub fn copy(&self) -> Result<Self, AllocError>
        ensures { IfOk result (λ l. l ≡ self.now) }
    {
        Ok(Local {
            bytes: self.bytes.copy()?,
        })
    }

    /// Makes this memory equal to another, without allocating memory of the host.
    pub fn copy_from(&mut self, other: &Self)
        ensures { self.new ≡ other.now }
    {
        self.bytes.copy_from(&other.bytes);
    }

    /// Returns whether both have the same bytes.
    pub fn equals(&self, other: &Self) -> bool
        ensures { IsTrue result ↔ (self.now ≡ other.now) }
    {
        self.bytes.equals(&other.bytes)
    }

    /// Returns the bytes up to the last one that is not zero, in a vector of just that size.
    pub(crate) fn used_bytes(&self) -> Result<Vec<u8>, AllocError>
        ensures same { IfOk result (λ bytes. region_of_bytes bytes.items ≡ self.now) }
        ensures few { IfOk result (λ bytes. vec_len bytes ≤ 2 ^ 16) }
    {
        self.bytes.used_bytes()
    }

    /// The little-endian number at a place from the region's first address.
    pub fn number(&self, place: u32, size: Size) -> u32
        requires { place + bytes_of size ≤ 2 ^ 16 }
        ensures value { result ≡ number_at self.now place (bytes_of size) }
        ensures small { result < 2 ^ (8 * bytes_of size) }
    {
        self.bytes.number(place, size)
    }

    /// Writes the low bytes of a number at a place from the region's first address.
    pub fn set_number(&mut self, place: u32, size: Size, value: u32)
        requires { place + bytes_of size ≤ 2 ^ 16 }
        ensures { self.new ≡ with_number self.old place (bytes_of size) value }
    {
        self.bytes.set_number(place, size, value);
    }

    /// The little-endian number at an address.
    ///
    /// # Errors
    ///
    /// [`Fault::AddressNotAligned`] if the address is not divisible by the size; otherwise [`Fault::NoRegion`] if it is
    /// outside local memory.
    pub fn load(&self, address: u32, size: Size) -> Result<u32, Fault>
        ensures value { result ≡ load_of self.now (bytes_of size) address (in_local address) }
        ensures small { IfOk result (λ number. number < 2 ^ (8 * bytes_of size)) }
    {
        if address % size.bytes() != 0 {
            Err(Fault::AddressNotAligned)
        } else if address / REGION_BYTES == LOCAL_START / REGION_BYTES {
            Ok(self.number(address % REGION_BYTES, size))
        } else {
            Err(Fault::NoRegion)
        }
    }

    /// Writes the low bytes of a number at an address.
    ///
    /// # Errors
    ///
    /// Those of [`load`](Local::load). Nothing is written then.
    pub fn store(&mut self, address: u32, size: Size, value: u32) -> Result<(), Fault>
        ensures fault { result ≡ access_of (bytes_of size) address (in_local address) }
        ensures stored { OnOk result (self.new ≡ with_number self.old (address % 2 ^ 16) (bytes_of size) value) }
        ensures refused { OnErr result (self.new ≡ self.old) }
    {
        if address % size.bytes() != 0 {
            Err(Fault::AddressNotAligned)
        } else if address / REGION_BYTES == LOCAL_START / REGION_BYTES {
            self.set_number(address % REGION_BYTES, size, value);
            Ok(())
        } else {
            Err(Fault::NoRegion)
        }
    }
}
