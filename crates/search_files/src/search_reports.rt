//! Standard error, as a search reports on it.

use crate::page_source::PageSource;
use crate::refusal::SearchRefusal;
use std::io::{self, Write};

/// Standard error. A command takes a page for which memory is short for a file that cannot be written, and reports
/// that: it is left out here, since the search is then refused for its want of memory ([`status_unless_short`]).
#[derive(Drop)]
pub(crate) struct SearchReports<'a, E> {
    pub(crate) err: &'a mut E,
    pub(crate) source: &'a PageSource,
}

impl<E: Write> Write for SearchReports<'_, E> {
    fn write(&mut self, buf: &[u8]) -> io::Result<usize> {
        if self.source.is_short.get() {
            return Ok(buf.len());
        }
        self.err.write(buf)
    }

    fn flush(&mut self) -> io::Result<()> {
        self.err.flush()
    }
}

/// The exit status of a command, unless memory was short for a page or for the image that it shows.
///
/// # Errors
///
/// [`SearchRefusal::Memory`].
pub(crate) fn status_unless_short<'a>(
    status: u8,
    source: &PageSource,
) -> Result<u8, SearchRefusal<'a>> {
    if source.is_short.get() {
        return Err(SearchRefusal::Memory);
    }
    Ok(status)
}
