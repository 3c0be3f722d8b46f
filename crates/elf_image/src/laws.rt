//! What reading an image gives, for the laws of images (`image_laws`).

ghost use Rattle.std.specs.Prelude.{◌≡◌, ℕ, List, None};
ghost use Rattle.elf_image.specs.declared.layout.Layout.{Layout};
ghost use Rattle.elf_image.specs.Refusals.{refusal_of};
ghost use Rattle.elf_image.specs.Images.{IsAccepted, IsMeant};
ghost use Rattle.elf_image.specs.Loading.{LoadsLayout};

pub use crate::image_laws::{
    input_means_one_layout, machine_opens_on_the_file, machine_opens_on_the_layout,
    not_refused_is_accepted, refusals_have_their_causes, spelling_is_headers_and_bytes,
    spelling_means_its_layout,
};

/// Input that is not refused is accepted, and it means the layout that its segments load.
#[tactic(auto, using(crate::proofs::Meant::accepted_file, crate::proofs::Meant::meant_layout))]
pub fn loading_gives_the_meaning()
    ensures accepted { (shared_words : ℕ) (file : List ℕ) → refusal_of shared_words file ≡ None →
        IsAccepted shared_words file }
    ensures meant { (shared_words : ℕ) (file : List ℕ) (layout : Layout) → refusal_of shared_words file ≡ None
        → LoadsLayout file shared_words layout → IsMeant shared_words file layout }
{}
