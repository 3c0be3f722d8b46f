//! Laws of the meaning of a text.

ghost use Rattle.std.specs.Prelude.{◌≡◌, ◌≤◌, ◌<◌, ◌*◌, ◌^◌, ℕ, true, List, length, Some};
ghost use Rattle.flat_machine.specs.declared.config.Config.{Config};
ghost use Rattle.flat_machine.specs.Memory.{in_code};
ghost use Rattle.elf_image.specs.declared.layout.Layout.{Layout};
ghost use Rattle.elf_image.specs.Spellings.{spelling};
ghost use Rattle.assembler.specs.declared.fault.AsmError.{AsmError};
ghost use Rattle.assembler.specs.declared.symbol.Symbol.{Symbol};
ghost use Rattle.assembler.specs.Meaning.{Labels, labels_of, lines_of, IsMeaning, IsPresent, FitsRegions};
ghost use Rattle.assembler.specs.Openings.{IsReadAsText};
ghost use Rattle.assembler.specs.Parts.{MakeValue};

use elf_image::laws;

/// A text with a fault has no meaning.
pub fn fault_or_meaning()
    ensures { (text : List ℕ) (layout : Layout) (e : AsmError) → IsMeaning text layout → IsPresent text e → ⊥ }
{}

/// A text has at most one meaning.
pub fn one_meaning()
    ensures { (text : List ℕ) (one other : Layout) → IsMeaning text one → IsMeaning text other → one ≡ other }
{}

/// The meaning of a text fits into the regions of memory.
pub fn meaning_fits()
    ensures { (text : List ℕ) (layout : Layout) → IsMeaning text layout → FitsRegions layout }
{}

/// `%hi` and `%lo` of a label give back its value: after LUI with the first, ADDI with the second makes the value, and
/// a load or a store with the second refers to it. In a text with a meaning this holds of every label.
pub fn high_and_low_make_the_value()
    ensures value { (labels : Labels) (name : List ℕ) (symbol : Symbol) → labels name ≡ Some symbol
        → symbol.address < 2 ^ 32 → MakeValue labels name symbol.address }
    ensures text { (text : List ℕ) (layout : Layout) (name : List ℕ) (symbol : Symbol) → IsMeaning text layout
        → labels_of (lines_of text) name ≡ Some symbol → MakeValue (labels_of (lines_of text)) name symbol.address }
{}

/// From text to image to flat state. If a text has a meaning, with an entry in code and a shared section that fits the
/// configuration, the spelling of its layout is accepted and read for that configuration, unless the link fails or
/// memory runs out. The machine that opens on what was read has all processors at the entry, and at each address what
/// the text places there.
pub fn image_opens_on_the_text()
    ensures { (config : Config) (text : List ℕ) (layout : Layout) → IsMeaning text layout
        → in_code layout.entry ≡ true → length layout.shared ≤ 4 * config.shared_words
        → IsReadAsText text config (spelling layout) }
{
    // Laws of images, only for the proof.
    laws::input_means_one_layout();
    laws::machine_opens_on_the_layout();
    laws::not_refused_is_accepted();
    laws::spelling_is_headers_and_bytes();
    laws::spelling_means_its_layout();
}
