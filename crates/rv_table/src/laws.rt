//! Laws of the table: each is the contract of a function that does nothing.

ghost use Rattle.std.specs.Prelude.{◌≡◌, ℕ, ◌↔◌, bit_and, Contains, Some};
ghost use Rattle.rv_table.specs.declared.insn.Insn.{Insn};
ghost use Rattle.rv_table.specs.declared.table.Row.{Row};
ghost use Rattle.rv_table.specs.Formats.{fields_of, operands_of};
ghost use Rattle.rv_table.specs.Rows.{rows, row_of, format_of, HasOperands, InRange, Spells, insn_of};

use crate::table::TABLE;

/// The table of the code is the table of the manual.
pub fn rows_are_the_table()
    ensures { TABLE ≡ rows }
{}

/// The table has the row of each instruction.
pub fn row_of_insn_is_listed()
    ensures { (i : Insn) → Contains rows (row_of i) }
{}

/// A word that fits a row of the table spells an instruction of that row.
pub fn row_spells_an_instruction()
    ensures { (word : ℕ) (r : Row) → Contains rows r → bit_and word r.mask ≡ r.match_ →
        (i : Insn) × (row_of i ≡ r) × Spells word i }
{}

/// The operands of an instruction are the fields of its format.
pub fn operands_are_the_fields()
    ensures { (word : ℕ) (i : Insn) → HasOperands word i ↔ (operands_of i ≡ fields_of (format_of i) word) }
{}

/// A word spells at most one instruction.
pub fn spelled_once()
    ensures { (word : ℕ) (i j : Insn) → Spells word i → Spells word j → i ≡ j }
{}

/// The table reads a word as an instruction exactly if the word spells it.
pub fn spelled_is_read()
    ensures { (word : ℕ) (i : Insn) → (insn_of word ≡ Some i) ↔ Spells word i }
{}

/// If a word spells an instruction, each operand fits the width of its field.
#[tactic(auto, using(crate::proofs::Reading::operands_fit))]
pub fn operands_fit_their_fields()
    ensures { (word : ℕ) (i : Insn) → Spells word i → InRange i }
{}
