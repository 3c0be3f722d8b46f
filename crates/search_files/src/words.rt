//! Lists of shared words.

use crate::refusal::SearchRefusal;
use observed_results::ObservedWords;
use settings::Sizes;
use std::alloc::Global;

/// The words that a list names, on a machine of these sizes, or None if no list is given.
pub(crate) fn words_of<'a>(
    alloc: Global,
    list: Option<&'a str>,
    sizes: &Sizes,
) -> Result<Option<ObservedWords>, SearchRefusal<'a>> {
    let Some(list) = list else {
        return Ok(None);
    };
    match ObservedWords::of_list(alloc, list, sizes.words) {
        Ok(Some(words)) => Ok(Some(words)),
        Ok(None) => Err(SearchRefusal::NoList(list, sizes.words)),
        Err(_) => Err(SearchRefusal::Memory),
    }
}
