//! The labels of a text.

ghost use Rattle.std.specs.Prelude.{◌≡◌, IfOk, IfSome};
ghost use Rattle.word_faults.specs.FirstWords.{few_edits, nearer};
ghost use Rattle.word_faults.specs.Views.{near_view};
ghost use Rattle.line_faults.specs.AdviceAtFault.{IsNearLabel};
ghost use Rattle.line_faults.specs.Places.{label_values};

use asm_lines::Section;
use std::alloc::{AllocError, Global};
use std::collections::BTreeMap;
use word_faults::few_edits;

/// What is known of a label.
#[derive(Clone, Copy, Drop)]
pub struct Label {
    /// The section of the label's last line.
    pub section: Section,
    /// The address of the section's next byte at the label's last line.
    pub address: u64,
    /// The first line with the label, counted from 1.
    pub line: usize,
}

/// A search for labels that are near to a word. It looks at a limited number of names, so that a text with many missing
/// labels does not take long.
#[derive(Drop)]
pub struct Search {
    left: usize,
}

impl Search {
    /// The most names that the search looks at for one text.
    const MAX_NAMES: usize = 262_144;

    /// A search that has not looked at a name yet.
    pub fn new() -> Search {
        Search {
            left: Search::MAX_NAMES,
        }
    }

    /// A label that is nearest to a word, if few edits lead to it.
    pub fn near<'a>(
        &mut self,
        alloc: Global,
        labels: &BTreeMap<&'a [u8], Label>,
        word: &[u8],
    ) -> Result<Option<&'a [u8]>, AllocError>
        ensures { IfOk result (λ found. IfSome found (λ name. IsNearLabel
            (label_values labels.now) word.now name.now)) }
    {
        let mut nearest: Option<(usize, &'a [u8])> = None;
        for name in labels.keys() {
            if self.left == 0 {
                break;
            }
            self.left -= 1;
            nearest = nearer(alloc, word, name, nearest)?;
        }
        match nearest {
            Some((_, name)) => Ok(Some(name)),
            None => Ok(None),
        }
    }
}

/// The nearer of a label and the nearest one so far.
fn nearer<'a>(
    alloc: Global,
    word: &[u8],
    name: &'a [u8],
    nearest: Option<(usize, &'a [u8])>,
) -> Result<Option<(usize, &'a [u8])>, AllocError>
    ensures { IfOk result (λ found. near_view found
        ≡ nearer (few_edits word.now name.now) name.now (near_view nearest.entry)) }
{
    Ok(match (few_edits(alloc, word, name)?, nearest) {
        (Some(edits), None) => Some((edits, name)),
        (Some(edits), Some((fewest, _))) if edits < fewest => Some((edits, name)),
        _ => nearest,
    })
}
