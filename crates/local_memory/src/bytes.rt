//! The bytes of one region.

ghost use Rattle.std.specs.Prelude.{◌≡◌, ◌↔◌, ◌<◌, ◌≤◌, ◌^◌, ◌*◌, ◌+◌, ◌%◌, length, replicate, slice_index, slice_set};
ghost use Rattle.std.specs.Prelude.{IfOk, IsTrue, vec_len, vec_capacity};
ghost use Rattle.flat_machine.specs.Memory.{number_at, with_number};
ghost use Rattle.flat_machine.specs.Sizes.{bytes_of};
ghost use Rattle.local_memory.specs.Accesses.{region_of_bytes};

use flat_machine::Size;
use std::alloc::{AllocError, Global};
use std::marker::Model;

/// The number of bytes of a region.
const REGION_LENGTH: usize = 0x1_0000;

/// The 65,536 bytes of a region, by their places from its first address. The bytes after the last one written are zero
/// and not stored, so the time of a copy depends on what is used. The buffer has room for all, so a write allocates no
/// memory.
#[derive(Drop)]
pub struct RegionBytes {
    written: Vec<u8>,
}

impl Model for RegionBytes {
    ghost use Rattle.std.specs.Prelude.{◌≤◌, ℕ, ◌^◌, List, vec_len, vec_capacity};
    ghost use Rattle.local_memory.specs.Accesses.{region_of_bytes};

    ghost Value = { List ℕ };

    ghost view = { λ r. region_of_bytes r.written.items };

    ghost invariant = { λ r. (vec_len r.written ≤ 2 ^ 16) × (2 ^ 16 ≤ vec_capacity r.written) };
}

impl RegionBytes {
    /// A region that begins with these bytes, and is zero after them.
    pub fn new(alloc: Global, bytes: &[u8]) -> Result<Self, AllocError>
        requires { length bytes.now ≤ 2 ^ 16 }
        ensures { IfOk result (λ r. r ≡ region_of_bytes bytes.now) }
    {
        let mut written = Vec::with_capacity(alloc, REGION_LENGTH)?;
        written.extend_from_slice(bytes)?;
        Ok(RegionBytes { written })
    }

    /// Returns an equal region.
    pub fn copy(&self) -> Result<Self, AllocError>
        ensures { IfOk result (λ r. r ≡ self.now) }
    {
        RegionBytes::new(*self.written.allocator(), self.written.as_slice())
    }

    /// Makes this region equal to another, without allocating memory.
    pub fn copy_from(&mut self, other: &Self)
        ensures { self.new ≡ other.now }
    {
        self.written.clear();
        // The buffer has room for all bytes of a region, so this cannot fail.
        let _ = self.written.extend_from_slice(other.written.as_slice());
    }

    /// Returns whether both have the same bytes.
    pub fn equals(&self, other: &Self) -> bool
        ensures { IsTrue result ↔ (self.now ≡ other.now) }
    {
        are_equal(self.written.as_slice(), other.written.as_slice())
    }

    /// Returns the bytes up to the last one that is not zero, in a vector of just that size.
    pub fn used_bytes(&self) -> Result<Vec<u8>, AllocError>
        ensures same { IfOk result (λ bytes. region_of_bytes bytes.items ≡ self.now) }
        ensures few { IfOk result (λ bytes. vec_len bytes ≤ 2 ^ 16) }
    {
        used_bytes(*self.written.allocator(), self.written.as_slice())
    }

    /// The little-endian number at a place.
    #[tactic(auto, unfolding(flat_machine::specs::Memory::number_at))]
    pub fn number(&self, place: u32, size: Size) -> u32
        requires { place + bytes_of size ≤ 2 ^ 16 }
        ensures value { result ≡ number_at self.now place (bytes_of size) }
        ensures small { result < 2 ^ (8 * bytes_of size) }
    {
        let place = place as usize;
        match size {
            Size::Byte => self.byte(place),
            Size::Half => self.byte(place) + 256 * self.byte(place + 1),
            Size::Word => {
                let low = self.byte(place) + 256 * self.byte(place + 1);
                let high = self.byte(place + 2) + 256 * self.byte(place + 3);
                low + 65536 * high
            }
        }
    }

    fn byte(&self, place: usize) -> u32
        ensures value { result ≡ slice_index self.now place }
        ensures small { result < 256 }
    {
        match self.written.get(place) {
            Some(byte) => u32::from(*byte),
            None => 0,
        }
    }

    /// Writes the low bytes of a number at a place, the lowest byte first.
    #[tactic(auto, unfolding(flat_machine::specs::Memory::with_number))]
    pub fn set_number(&mut self, place: u32, size: Size, value: u32)
        requires { place + bytes_of size ≤ 2 ^ 16 }
        ensures { self.new ≡ with_number self.old place (bytes_of size) value }
    {
        let written = &mut self.written;
        let place = place as usize;
        write_up_to(written, place + size.bytes() as usize);
        match size {
            Size::Byte => set_byte(written, place, value),
            Size::Half => {
                set_byte(written, place, value);
                set_byte(written, place + 1, value / 256);
            }
            Size::Word => {
                set_byte(written, place, value);
                set_byte(written, place + 1, value / 256);
                set_byte(written, place + 2, value / 256 / 256);
                set_byte(written, place + 3, value / 256 / 256 / 256);
            }
        }
    }
}

/// Writes the low byte of a number over a stored byte.
fn set_byte(written: &mut Vec<u8>, place: usize, value: u32)
    requires { place < vec_len written.old }
    ensures set { region_of_bytes written.new.items
        ≡ slice_set (region_of_bytes written.old.items) place (value % 256) }
    ensures count { vec_len written.new ≡ vec_len written.old }
    ensures capacity { vec_capacity written.new ≡ vec_capacity written.old }
{
    written[place] = (value % 256) as u8;
}

/// Appends zeros until at least `count` bytes are stored. There is room for them.
fn write_up_to(written: &mut Vec<u8>, count: usize)
    requires old { vec_len written.old ≤ 2 ^ 16 }
    requires new { count ≤ 2 ^ 16 }
    requires room { count ≤ vec_capacity written.old }
    ensures same { region_of_bytes written.new.items ≡ region_of_bytes written.old.items }
    ensures written { count ≤ vec_len written.new }
    ensures few { vec_len written.new ≤ 2 ^ 16 }
    ensures capacity { vec_capacity written.new ≡ vec_capacity written.old }
{
    for _ in written.len()..count {
        written.push_reserved(0);
    }
}

/// Copies the bytes up to the last one that is not zero.
fn used_bytes(alloc: Global, bytes: &[u8]) -> Result<Vec<u8>, AllocError>
    requires { length bytes.now ≤ 2 ^ 16 }
    ensures same { IfOk result (λ used. region_of_bytes used.items ≡ region_of_bytes bytes.now) }
    ensures few { IfOk result (λ used. vec_len used ≤ 2 ^ 16) }
{
    let mut count = bytes.len();
    while count > 0 && bytes[count - 1] == 0 {
        count -= 1;
    }
    Vec::from_slice(alloc, &bytes[..count])
}

/// Returns whether two regions are equal that begin with these bytes and are zero after them.
pub fn are_equal(one: &[u8], other: &[u8]) -> bool
    requires one { length one.now ≤ 2 ^ 16 }
    requires other { length other.now ≤ 2 ^ 16 }
    ensures { IsTrue result ↔ (region_of_bytes one.now ≡ region_of_bytes other.now) }
{
    if one.len() <= other.len() {
        pads(one, other)
    } else {
        pads(other, one)
    }
}

/// Returns whether `long` is `short` followed by zeros.
fn pads(short: &[u8], long: &[u8]) -> bool
    requires shorter { length short.now ≤ length long.now }
    requires few { length long.now ≤ 2 ^ 16 }
    ensures { IsTrue result ↔ (region_of_bytes short.now ≡ region_of_bytes long.now) }
{
    let (front, back) = long.split_at(short.len());
    are_same(front, short) && are_zero(back)
}

fn are_same(one: &[u8], other: &[u8]) -> bool
    ensures { IsTrue result ↔ (one.now ≡ other.now) }
{
    one == other
}

fn are_zero(bytes: &[u8]) -> bool
    ensures { IsTrue result ↔ (bytes.now ≡ replicate (length bytes.now) 0) }
{
    for byte in bytes {
        if *byte != 0 {
            return false;
        }
    }
    true
}
