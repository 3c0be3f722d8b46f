//! Words from sums and from immediates (manual, "Immediate Encoding Variants").

ghost use Rattle.std.specs.Prelude.{◌≡◌, ◌<◌, ◌≤◌, ◌^◌, ◌*◌, ◌+◌};
ghost use Rattle.flat_machine.specs.Words.{extended, part_of, plus};
ghost use Rattle.flat_machine.specs.Sizes.{bytes_of};

use flat_machine::Size;
use rv_table::Immediate;

/// A sum modulo 2^32.
#[tactic(auto, unfolding(flat_machine::specs::Words::plus))]
pub fn sum(a: u32, b: u32) -> u32
    ensures { result ≡ plus a b }
{
    a.wrapping_add(b)
}

/// An immediate of twelve bits, sign-extended.
#[tactic(auto, unfolding(flat_machine::specs::Words::extended))]
pub fn immediate_word(immediate: Immediate<12>) -> u32
    ensures { result ≡ extended 12 immediate }
{
    let field = immediate.field();
    if field < 0x800 {
        field
    } else {
        field + 0xFFFF_F000
    }
}

/// A branch's offset in bytes, sign-extended.
#[tactic(auto, unfolding(flat_machine::specs::Words::extended))]
pub fn branch_offset(offset: Immediate<12>) -> u32
    ensures { result ≡ extended 13 (2 * offset) }
{
    let bytes = 2 * offset.field();
    if bytes < 0x1000 {
        bytes
    } else {
        bytes + 0xFFFF_E000
    }
}

/// A jump's offset in bytes, sign-extended.
#[tactic(auto, unfolding(flat_machine::specs::Words::extended))]
pub fn jump_offset(offset: Immediate<20>) -> u32
    ensures { result ≡ extended 21 (2 * offset) }
{
    let bytes = 2 * offset.field();
    if bytes < 0x10_0000 {
        bytes
    } else {
        bytes + 0xFFE0_0000
    }
}

/// The bytes of a word from an offset on, as many as the size has, as a number.
#[tactic(auto, unfolding(flat_machine::specs::Words::part_of))]
pub fn part(size: Size, offset: u32, word: u32) -> u32
    requires { offset + bytes_of size ≤ 4 }
    ensures value { result ≡ part_of (bytes_of size) offset word }
    ensures small { result < 2 ^ (8 * bytes_of size) }
{
    (word >> (8 * offset)) & size.ones()
}
