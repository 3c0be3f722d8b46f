//! The code that all processors share.

ghost use Rattle.std.specs.Prelude.{◌≡◌, ◌<◌, ◌≤◌, ◌^◌, ◌*◌, ◌+◌, ◌%◌, length, IfOk};
ghost use Rattle.flat_machine.specs.Memory.{in_code, number_at};
ghost use Rattle.flat_machine.specs.Turns.{fetched};
ghost use Rattle.flat_machine.specs.Sizes.{bytes_of};
ghost use Rattle.local_memory.specs.Accesses.{load_of, region_of_bytes};
ghost use Rattle.local_memory.specs.Decoded.{AreDecoded};

use crate::bytes::RegionBytes;
use decode::decode;
use flat_machine::{CODE_START, Fault, REGION_BYTES, Size};
use rv_table::Insn;
use std::alloc::{AllocError, Global};
use std::marker::Model;

/// The number of words of code.
const CODE_WORDS: u32 = 0x4000;

/// Code, as its bytes from [`CODE_START`]. It never changes, so each word is decoded once, when the code is made.
#[derive(Drop)]
pub struct Code {
    bytes: RegionBytes,
    insns: Vec<Option<Insn>>,
}

impl Model for Code {
    ghost use Rattle.std.specs.Prelude.{ℕ, ◌^◌, List};
    ghost use Rattle.local_memory.specs.Decoded.{AreDecoded};

    ghost Value = { List ℕ };

    ghost view = { λ c. c.bytes };

    ghost invariant = { λ c. AreDecoded c.bytes c.insns.items (2 ^ 14) };
}

impl Code {
    /// Code that begins with these bytes; the rest is zero.
    pub fn new(alloc: Global, bytes: &[u8]) -> Result<Self, AllocError>
        requires { length bytes.now ≤ 2 ^ 16 }
        ensures { IfOk result (λ c. c ≡ region_of_bytes bytes.now) }
    {
        let bytes = RegionBytes::new(alloc, bytes)?;
        let insns = decode_all(alloc, &bytes)?;
        Ok(Code { bytes, insns })
    }

    /// The instruction at `pc`.
    ///
    /// # Errors
    ///
    /// [`Fault::FetchOutsideCode`] if `pc` is outside code; otherwise [`Fault::NoRow`] if the word there spells no
    /// instruction.
    #[tactic(auto, unfolding(flat_machine::specs::Turns::fetched))]
    pub fn fetch(&self, pc: u32) -> Result<Insn, Fault>
        requires { pc % 4 ≡ 0 }
        ensures { result ≡ fetched self.now pc }
    {
        if pc / REGION_BYTES != CODE_START / REGION_BYTES {
            return Err(Fault::FetchOutsideCode);
        }
        match self.insns[(pc % REGION_BYTES / 4) as usize] {
            Some(insn) => Ok(insn),
            None => Err(Fault::NoRow),
        }
    }

    /// The little-endian number at a place from the region's first address.
    pub fn number(&self, place: u32, size: Size) -> u32
        requires { place + bytes_of size ≤ 2 ^ 16 }
        ensures value { result ≡ number_at self.now place (bytes_of size) }
        ensures small { result < 2 ^ (8 * bytes_of size) }
    {
        self.bytes.number(place, size)
    }

    /// The little-endian number at an address.
    ///
    /// # Errors
    ///
    /// [`Fault::AddressNotAligned`] if the address is not divisible by the size; otherwise [`Fault::NoRegion`] if it is
    /// outside code.
    pub fn load(&self, address: u32, size: Size) -> Result<u32, Fault>
        ensures value { result ≡ load_of self.now (bytes_of size) address (in_code address) }
        ensures small { IfOk result (λ number. number < 2 ^ (8 * bytes_of size)) }
    {
        if address % size.bytes() != 0 {
            Err(Fault::AddressNotAligned)
        } else if address / REGION_BYTES == CODE_START / REGION_BYTES {
            Ok(self.number(address % REGION_BYTES, size))
        } else {
            Err(Fault::NoRegion)
        }
    }
}

/// Decodes each word of code.
fn decode_all(alloc: Global, bytes: &RegionBytes) -> Result<Vec<Option<Insn>>, AllocError>
    ensures { IfOk result (λ insns. AreDecoded bytes.now insns.items (2 ^ 14)) }
{
    let mut insns = Vec::with_capacity(alloc, CODE_WORDS as usize)?;
    for index in 0..CODE_WORDS {
        insns.push(decode(bytes.number(4 * index, Size::Word)))?;
    }
    Ok(insns)
}
