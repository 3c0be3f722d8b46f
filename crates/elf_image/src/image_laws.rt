//! Laws of images: each is the contract of a function that does nothing, or that calls another law.

ghost use Rattle.std.specs.Prelude.{◌≡◌, ◌↔◌, ℕ, ◌+◌, ◌<◌, ◌≤◌, List, None, Some, length, slice_index};
ghost use Rattle.flat_machine.specs.declared.config.Config.{Config};
ghost use Rattle.elf_image.specs.declared.error.ImageError.{ImageError};
ghost use Rattle.elf_image.specs.declared.layout.Layout.{Layout};
ghost use Rattle.elf_image.specs.Refusals.{refusal_of};
ghost use Rattle.elf_image.specs.Images.{IsAccepted, IsMeant, IsPlaced};
ghost use Rattle.elf_image.specs.Spellings.{spelling};
ghost use Rattle.elf_image.specs.Openings.{opening};
ghost use Rattle.elf_image.specs.Laws.{HasCause, IsFileOpening, IsLayoutOpening, IsOpenable};

use crate::laws;

/// Input is accepted exactly if it is not refused. In accepted input the addresses of each segment are in one region,
/// and no two segments set the same address.
pub fn not_refused_is_accepted()
    ensures { (shared_words : ℕ) (file : List ℕ) → (refusal_of shared_words file ≡ None)
        ↔ IsAccepted shared_words file }
{
    // The proof alone needs this law of reading.
    laws::loading_gives_the_meaning();
}

/// Input that is refused has the cause that is reported.
pub fn refusals_have_their_causes()
    ensures { (shared_words : ℕ) (file : List ℕ) (error : ImageError) → refusal_of shared_words file ≡ Some error
        → HasCause shared_words file error }
{}

/// Input means at most one layout.
pub fn input_means_one_layout()
    ensures { (shared_words : ℕ) (file : List ℕ) (one other : Layout) → IsMeant shared_words file one
        → IsMeant shared_words file other → one ≡ other }
{}

/// A machine that opens on a layout has at each address what the layout has there: a byte of the region, and zero after
/// the last one. Every processor has the local bytes, is at the entry with all registers zero, and runs.
pub fn machine_opens_on_the_layout()
    ensures { (config : Config) (layout : Layout) → IsOpenable layout →
        IsLayoutOpening layout config (opening config layout) }
{}

/// A machine that opens on the layout of a file has at each address what the file has there: the byte that a segment
/// sets, or zero if none does. Every processor has the local bytes, is at the entry with all registers zero, and runs.
pub fn machine_opens_on_the_file()
    ensures { (config : Config) (file : List ℕ) (layout : Layout) → IsMeant config.shared_words file layout
        → ((i : ℕ) → slice_index layout.shared i < 256) → IsFileOpening file config (opening config layout) }
{}

/// A spelling has at most 148 bytes of headers, the file header and at most three program headers, followed by the
/// bytes of each region.
pub fn spelling_is_headers_and_bytes()
    ensures { (layout : Layout) →
        length (spelling layout) ≤ 148 + length layout.code + length layout.local + length layout.shared }
{}

/// The spelling of a layout is accepted and means the layout, if it is not too long and the layout fits its regions. So
/// an image that is written is read back unchanged.
pub fn spelling_means_its_layout()
    ensures { (shared_words : ℕ) (layout : Layout) → IsPlaced layout shared_words → length (spelling layout) ≤ 1048576
        → IsAccepted shared_words (spelling layout) × IsMeant shared_words (spelling layout) layout }
{
    // The proof alone needs this law of reading.
    laws::loading_gives_the_meaning();
}
