//! Laws of the listed faults. Each law is the contract of a function that does nothing.

ghost use Rattle.std.specs.Prelude.{◌≡◌, ℕ, List, [], Contains};
ghost use Rattle.elf_image.specs.declared.layout.Layout.{Layout};
ghost use Rattle.assembler.specs.declared.fault.AsmError.{AsmError};
ghost use Rattle.assembler.specs.Meaning.{IsMeaning, IsPresent};
ghost use Rattle.fault_lists.specs.Faults.{errors_of};

/// The listed faults of a text are exactly those that are present in the sense of `assemble`. So the fault for which
/// `assemble` refuses a text is among them.
pub fn listed_where_present()
    ensures sound { (text : List ℕ) (e : AsmError) → Contains (errors_of text) e → IsPresent text e }
    ensures complete { (text : List ℕ) (e : AsmError) → IsPresent text e → Contains (errors_of text) e }
{}

/// A text that has a meaning has no faults, and a text that has no faults has a meaning.
pub fn none_where_there_is_a_meaning()
    ensures none { (text : List ℕ) (layout : Layout) → IsMeaning text layout → errors_of text ≡ [] }
    ensures meaning { (text : List ℕ) → errors_of text ≡ [] → (layout : Layout) × IsMeaning text layout }
{}
