//! Laws of what a line says.

ghost use Rattle.std.specs.Prelude.{◌≡◌, ℕ, List, ◌++◌, codes, true, ◌^◌, ◌/◌, ◌<◌, pos, negsuc, ◌∷◌, [], Some, None};
ghost use Rattle.std.specs.Prelude.{Ok};
ghost use Rattle.rv_table.specs.declared.insn.Insn.{Insn};
ghost use Rattle.rv_table.specs.Rows.{InRange};
ghost use Rattle.asm_lines.specs.Text.{parts_at, operands_of};
ghost use Rattle.asm_lines.specs.Alike.{IsNumeralOf, AreReadAlike, Pairwise, SayTheSame, AreBlanks, IsQuiet, IsMark};
ghost use Rattle.asm_lines.specs.Alike.{IsFirstWord, IsLead, statement_line};
ghost use Rattle.asm_lines.specs.Number.{low_bits, number_of};
ghost use Rattle.asm_lines.specs.Statements.{instruction, is_name, line_of};
ghost use Rattle.asm_lines.specs.Written.{text_of, as_said, signed, offset, IsEvenWithin};

/// The text of an instruction is one line, which has no label and says the instruction.
pub fn written_again()
    ensures one_line { (i : Insn) → InRange i → parts_at 10 (text_of i) ≡ text_of i ∷ [] }
    ensures read { (i : Insn) → InRange i
        → line_of (text_of i) ≡ Ok (record { name = None; statement = Some (instruction (as_said i)) }) }
{}

/// The number written for a field is in the range in which it is read, and its low bits are the field.
pub fn fields_again()
    ensures lower { (f : ℕ) → f < 2 ^ 12 → low_bits (2 ^ 12) (signed (2 ^ 11) f) ≡ f }
    ensures upper { (f : ℕ) → f < 2 ^ 20 → low_bits (2 ^ 20) (pos f) ≡ f }
    ensures branch { (f : ℕ) → f < 2 ^ 12 → low_bits (2 ^ 13) (offset (2 ^ 11) f) / 2 ≡ f }
    ensures branch_in_range { (f : ℕ) → f < 2 ^ 12 → IsEvenWithin (negsuc 4095) (pos 4094) (offset (2 ^ 11) f) }
    ensures jump { (f : ℕ) → f < 2 ^ 20 → low_bits (2 ^ 21) (offset (2 ^ 19) f) / 2 ≡ f }
    ensures jump_in_range { (f : ℕ) → f < 2 ^ 20 → IsEvenWithin (negsuc 1048575) (pos 1048574) (offset (2 ^ 19) f) }
{}

/// Numerals of one number, in decimal digits or in `0x` and hex digits, are read alike as operands. So two lines that
/// differ only in such numerals say the same.
pub fn numerals_are_read_alike()
    ensures number { (n : ℕ) (bytes : List ℕ) → IsNumeralOf n bytes → number_of bytes ≡ Some (pos n) }
    ensures alike { (n : ℕ) (one other : List ℕ) → IsNumeralOf n one → IsNumeralOf n other → AreReadAlike one other }
    ensures lines { (lead word rest rest' : List ℕ) → IsLead lead → IsFirstWord word → IsQuiet rest → IsQuiet rest'
        → Pairwise SayTheSame (operands_of rest) (operands_of rest')
        → line_of (statement_line lead word rest) ≡ line_of (statement_line lead word rest') }
{}

/// A comment at the end of a line does not change what the line says.
pub fn comments_change_nothing()
    ensures { (line comment : List ℕ) → line_of (line ++ (codes "#" ++ comment)) ≡ line_of line }
{}

/// Blanks change nothing around a comma or a bracket among the operands of a statement, around a label's colon, or at
/// the ends of a line.
pub fn blanks_change_nothing()
    ensures marks { (lead word front gap gap' back : List ℕ) (mark : ℕ) → IsLead lead → IsFirstWord word →
        IsQuiet front → IsQuiet back
        → AreBlanks gap → AreBlanks gap' → IsMark mark
        → line_of (statement_line lead word (front ++ (gap ++ mark ∷ (gap' ++ back))))
        ≡ line_of (statement_line lead word (front ++ mark ∷ back)) }
    ensures colon { (name gap gap' rest : List ℕ) → is_name name ≡ true → AreBlanks gap → AreBlanks gap'
        → line_of (name ++ (gap ++ 58 ∷ (gap' ++ rest))) ≡ line_of (name ++ 58 ∷ rest) }
    ensures ends { (before line after : List ℕ) → AreBlanks before → AreBlanks after →
        line_of (before ++ (line ++ after)) ≡ line_of line }
{}
