//! Products and quotients of words (manual, extension "M").

ghost use Rattle.std.specs.Prelude.{◌≡◌, ◌-◌, ◌*◌, ◌/◌, ◌%◌, ◌^◌, ◌==◌, ◌*ℤ◌, if◌then◌else◌, pos};
ghost use Rattle.flat_machine.specs.Words.{overflows, quotient, remainder, upper};

/// The product of two signed numbers. It never overflows.
pub fn signed_product(a: i32, b: i32) -> i64
    ensures { result ≡ a *ℤ b }
{
    i64::from(a) * i64::from(b)
}

/// The product of a signed and an unsigned number. It never overflows.
pub fn mixed_product(a: i32, b: u32) -> i64
    ensures { result ≡ a *ℤ pos b }
{
    i64::from(a) * i64::from(b)
}

/// The upper word of a product.
#[tactic(auto, unfolding(flat_machine::specs::Words::upper))]
pub fn upper_half(product: i64) -> u32
    ensures { result ≡ upper product }
{
    (product.cast_unsigned() >> 32) as u32
}

/// The upper word of the product of two unsigned numbers.
pub fn unsigned_upper_half(a: u32, b: u32) -> u32
    ensures { result ≡ a * b / 2 ^ 32 }
{
    (u64::from(a) * u64::from(b) >> 32) as u32
}

/// The quotient in two's complement, rounded towards zero: all ones if the divisor is zero, and
/// -2^31 if the quotient overflows.
#[tactic(auto, unfolding(flat_machine::specs::Words::quotient))]
pub fn quotient(a: u32, b: u32) -> u32
    ensures { result ≡ quotient a b }
{
    if b == 0 {
        u32::MAX
    } else if overflows(a, b) {
        i32::MIN.cast_unsigned()
    } else {
        (a.cast_signed() / b.cast_signed()).cast_unsigned()
    }
}

/// The remainder in two's complement, with the dividend's sign: the dividend if the divisor is
/// zero, and 0 if the quotient overflows.
#[tactic(auto, unfolding(flat_machine::specs::Words::remainder))]
pub fn remainder(a: u32, b: u32) -> u32
    ensures { result ≡ remainder a b }
{
    if b == 0 {
        a
    } else if overflows(a, b) {
        0
    } else {
        a.cast_signed()
            .wrapping_rem(b.cast_signed())
            .cast_unsigned()
    }
}

/// Whether the quotient in two's complement overflows: only that of -2^31 by -1 does.
fn overflows(a: u32, b: u32) -> bool
    ensures { result ≡ overflows a b }
{
    a == 0x8000_0000 && b == u32::MAX
}

/// The quotient of unsigned numbers: all ones if the divisor is zero.
pub fn unsigned_quotient(a: u32, b: u32) -> u32
    ensures { result ≡ if b == 0 then 2 ^ 32 - 1 else a / b }
{
    if b == 0 { u32::MAX } else { a / b }
}

/// The remainder of unsigned numbers: the dividend if the divisor is zero.
pub fn unsigned_remainder(a: u32, b: u32) -> u32
    ensures { result ≡ if b == 0 then a else a % b }
{
    if b == 0 { a } else { a % b }
}
