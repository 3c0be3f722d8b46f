//! The operands of an instruction, read from the fields of a word (manual, "Base Instruction
//! Formats" and "Immediate Encoding Variants").

ghost use Rattle.std.specs.Prelude.{◌≡◌, ℕ, ◌+◌, ◌-◌, ◌*◌, ◌^◌, ◌<◌, ◌≤◌, cond};
ghost use Rattle.rv_table.specs.Rows.{bits};

use rv_table::{Immediate, Register};

/// Bits `high` to `low` of a word as a number. They are fewer than 32; bit 31 is the highest.
pub fn field(word: u32, high: u32, low: u32) -> u32
    requires ordered { low ≤ high }
    requires in_word { high < 32 }
    requires narrow { high < low + 31 }
    ensures value { result ≡ bits word high low }
    ensures small { result < 2 ^ (high + 1 - low) }
{
    (word >> low) & ((1 << (high + 1 - low)) - 1)
}

/// The register in bits 11 to 7.
pub fn rd(word: u32) -> Register
    ensures { result ≡ bits word 11 7 }
{
    Register::new(field(word, 11, 7) as u8)
}

/// The register in bits 19 to 15.
pub fn rs1(word: u32) -> Register
    ensures { result ≡ bits word 19 15 }
{
    Register::new(field(word, 19, 15) as u8)
}

/// The register in bits 24 to 20.
pub fn rs2(word: u32) -> Register
    ensures { result ≡ bits word 24 20 }
{
    Register::new(field(word, 24, 20) as u8)
}

/// The amount of a shift by a constant.
pub fn shift_amount(word: u32) -> Immediate<5>
    ensures { result ≡ bits word 24 20 }
{
    Immediate::new(field(word, 24, 20))
}

/// The I-immediate.
pub fn i_immediate(word: u32) -> Immediate<12>
    ensures { result ≡ bits word 31 20 }
{
    Immediate::new(field(word, 31, 20))
}

/// The S-immediate.
pub fn s_immediate(word: u32) -> Immediate<12>
    ensures { result ≡ bits word 31 25 * 2 ^ 5 + bits word 11 7 }
{
    Immediate::new((field(word, 31, 25) << 5) + field(word, 11, 7))
}

/// The B-immediate without its bit 0, which is always 0.
pub fn b_immediate(word: u32) -> Immediate<12>
    ensures { result ≡ bits word 31 31 * 2 ^ 11 + bits word 7 7 * 2 ^ 10 + bits word 30 25 * 2 ^ 4 + bits word 11 8 }
{
    Immediate::new(
        (field(word, 31, 31) << 11)
            + (field(word, 7, 7) << 10)
            + (field(word, 30, 25) << 4)
            + field(word, 11, 8),
    )
}

/// The U-immediate without its low 12 bits, which are always 0.
pub fn u_immediate(word: u32) -> Immediate<20>
    ensures { result ≡ bits word 31 12 }
{
    Immediate::new(field(word, 31, 12))
}

/// The J-immediate without its bit 0, which is always 0.
pub fn j_immediate(word: u32) -> Immediate<20>
    ensures { result
        ≡ bits word 31 31 * 2 ^ 19 + bits word 19 12 * 2 ^ 11 + bits word 20 20 * 2 ^ 10 + bits word 30 21 }
{
    Immediate::new(
        (field(word, 31, 31) << 19)
            + (field(word, 19, 12) << 11)
            + (field(word, 20, 20) << 10)
            + field(word, 30, 21),
    )
}

/// Whether this bit is set.
pub fn flag(word: u32, bit: u32) -> bool
    requires { bit < 32 }
    ensures { cond result 1 0 ≡ bits word bit bit }
{
    field(word, bit, bit) == 1
}
