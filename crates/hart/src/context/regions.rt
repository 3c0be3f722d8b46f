//! Where a memory access goes.

ghost use Rattle.std.specs.Prelude.{◌≡◌, IfOk, IsTrue};
ghost use Rattle.flat_machine.specs.Memory.{region_of};
ghost use Rattle.flat_machine.specs.Sizes.{bytes_of};
ghost use Rattle.hart.specs.Deciding.{IsInside, IsThere, IsWritable};

use super::Context;
use flat_machine::{CODE_START, Fault, LOCAL_START, REGION_BYTES, Region, SHARED_START, Size};
use hart_ops::is_aligned;

impl Context {
    /// Where an access goes: to a shared word, or to a place of local memory or of code.
    ///
    /// # Errors
    ///
    /// [`Fault::AddressNotAligned`] if the address is not divisible by the size; otherwise [`Fault::NoRegion`] if it is
    /// in no region, and [`Fault::StoreToCode`] if a write is to code.
    #[tactic(auto, unfolding(flat_machine::specs::Memory::region_of))]
    pub(crate) fn region(&self, size: Size, address: u32, writes: bool) -> Result<Region, Fault>
        ensures value { result ≡ region_of self.now.setting (bytes_of size) address writes }
        ensures inside { IfOk result (IsInside (bytes_of size) address) }
        ensures there { IfOk result (IsThere self.now.setting) }
        ensures writable { IsTrue writes → IfOk result IsWritable }
    {
        if !is_aligned(size, address) {
            return Err(Fault::AddressNotAligned);
        }
        if address >= SHARED_START && address < SHARED_START + 4 * self.setting.shared_words {
            return Ok(Region::Shared {
                word: (address - SHARED_START) / 4,
            });
        }
        let place = address % REGION_BYTES;
        match address / REGION_BYTES * REGION_BYTES {
            LOCAL_START => Ok(Region::Local { place }),
            CODE_START if writes => Err(Fault::StoreToCode),
            CODE_START => Ok(Region::Code { place }),
            _ => Err(Fault::NoRegion),
        }
    }
}
