//! The number of edits between a word and a name.

ghost use Rattle.std.specs.Prelude.{◌≡◌, IfOk};
ghost use Rattle.word_faults.specs.FirstWords.{few_edits, most_edits};

use std::alloc::{AllocError, Global};
use strsim::generic_levenshtein;

/// Longer names are near to no word.
const MAX_NAME_BYTES: usize = 32;

/// The most edits by which a word of this many bytes may differ from the name that was meant.
fn most_edits(count: usize) -> usize
    ensures { result ≡ most_edits count }
{
    match count {
        0 | 1 => 0,
        2..=5 => 1,
        _ => 2,
    }
}

/// The number of edits from a word to a name, if they are few. An edit inserts, deletes or changes a byte.
pub fn few_edits(alloc: Global, word: &[u8], name: &[u8]) -> Result<Option<usize>, AllocError>
    ensures { IfOk result (λ found. found ≡ few_edits word.now name.now) }
{
    let most = most_edits(word.len());
    if name.len() > MAX_NAME_BYTES || word.len().abs_diff(name.len()) > most {
        return Ok(None);
    }
    let edits = generic_levenshtein(alloc, word, name)?;
    Ok(if edits <= most { Some(edits) } else { None })
}
