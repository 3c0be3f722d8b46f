//! Operations on memory: the size of an access, its alignment, and the values that it reads and writes.

ghost use Rattle.std.specs.Prelude.{◌≡◌, ◌<◌, ◌^◌, ◌*◌};
ghost use Rattle.flat_machine.specs.Memory.{is_aligned};
ghost use Rattle.flat_machine.specs.Operations.{amo_value, load_size, loaded, store_size};
ghost use Rattle.flat_machine.specs.Sizes.{bytes_of};

use flat_machine::Size;
use rv_table::{AmoOp, LoadOp, StoreOp};

/// How many bytes a load reads.
pub fn load_size(op: LoadOp) -> Size
    ensures { bytes_of result ≡ load_size op }
{
    match op {
        LoadOp::Lb | LoadOp::Lbu => Size::Byte,
        LoadOp::Lh | LoadOp::Lhu => Size::Half,
        LoadOp::Lw => Size::Word,
    }
}

/// How many bytes a store writes.
pub fn store_size(op: StoreOp) -> Size
    ensures { bytes_of result ≡ store_size op }
{
    match op {
        StoreOp::Sb => Size::Byte,
        StoreOp::Sh => Size::Half,
        StoreOp::Sw => Size::Word,
    }
}

/// Whether an address is divisible by a size.
pub fn is_aligned(size: Size, address: u32) -> bool
    ensures { result ≡ is_aligned (bytes_of size) address }
{
    match size {
        Size::Byte => true,
        Size::Half => address % 2 == 0,
        Size::Word => address % 4 == 0,
    }
}

/// What `rd` gets from the bytes that a load reads, taken as a number.
#[tactic(auto, unfolding(flat_machine::specs::Operations::loaded, flat_machine::specs::Words::extended))]
pub fn load_result(op: LoadOp, old: u32) -> u32
    requires { old < 2 ^ (8 * load_size op) }
    ensures { result ≡ loaded op old }
{
    match op {
        LoadOp::Lb => if old < 0x80 {
            old
        } else {
            old.wrapping_add(0xFFFF_FF00)
        },
        LoadOp::Lh => if old < 0x8000 {
            old
        } else {
            old.wrapping_add(0xFFFF_0000)
        },
        LoadOp::Lw | LoadOp::Lbu | LoadOp::Lhu => old,
    }
}

/// The word after an AMO, from the word before it and the value of `rs2`.
#[tactic(auto, unfolding(flat_machine::specs::Operations::amo_value, flat_machine::specs::Words::plus, flat_machine::specs::Words::is_below))]
pub fn amo_result(op: AmoOp, old: u32, b: u32) -> u32
    ensures { result ≡ amo_value op old b }
{
    match op {
        AmoOp::Add => old.wrapping_add(b),
        AmoOp::Swap => b,
        AmoOp::Xor => old ^ b,
        AmoOp::Or => old | b,
        AmoOp::And => old & b,
        AmoOp::Min => if old.cast_signed() < b.cast_signed() {
            old
        } else {
            b
        },
        AmoOp::Max => if old.cast_signed() < b.cast_signed() {
            b
        } else {
            old
        },
        AmoOp::Minu => if old < b { old } else { b },
        AmoOp::Maxu => if old < b { b } else { old },
    }
}
