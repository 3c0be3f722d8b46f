//! Laws of course texts.

ghost use Rattle.std.specs.Prelude.{◌≡◌, ◌+◌, ◌*◌, ◌%◌, ◌^◌, ℕ, ℤ, List, All, IsOk, unsigned_abs};
ghost use Rattle.asm_lines.specs.Number.{low_bits};
ghost use Rattle.asm_lines.specs.Statements.{line_of};
ghost use Rattle.asm_lines.specs.Text.{parts_at};
ghost use Rattle.course_text.specs.Course.{plain_text};
ghost use Rattle.course_text.specs.Numbers.{lower_part, upper_part};

/// A text that the plain grammar reads is its own plain text.
pub fn plain_texts_stay()
    ensures { (text : List ℕ) → All (λ line. IsOk (line_of line)) (parts_at 10 text) → plain_text text ≡ text }
{}

/// The parts that `li` gives to LUI and ADDI leave the 32 bits of the number: 4096 times the upper part and the lower
/// part, as a word, add up to them.
pub fn li_leaves_the_number()
    ensures { (z : ℤ) → (unsigned_abs (upper_part z) * 4096 + low_bits (2 ^ 32) (lower_part z)) % 2 ^ 32
        ≡ low_bits (2 ^ 32) z }
{}
