//! What the pages of a search are made of besides traces: the image, as it was read.

use std::alloc::Global;
use std::cell::{Cell, RefCell};
use std::io::{self, ErrorKind, Read};

/// A copy of the image of a search, and whether memory was short for it or for a page.
#[derive(Drop)]
pub(crate) struct PageSource {
    /// The bytes of the image, as far as they were read.
    pub(crate) image: RefCell<Vec<u8>>,
    pub(crate) is_short: Cell<bool>,
}

impl PageSource {
    /// A copy of an image of which nothing was read.
    pub(crate) fn new(alloc: Global) -> Self {
        PageSource {
            image: RefCell::new(Vec::new(alloc)),
            is_short: Cell::new(false),
        }
    }

    /// Appends bytes to the copy, and returns whether there was memory for them.
    fn extend(&self, bytes: &[u8]) -> bool {
        match self.image.try_borrow_mut() {
            Ok(mut image) => image.extend_from_slice(bytes).is_ok(),
            Err(_) => false,
        }
    }

    /// Notes that memory is short, and returns the error of a call that fails for it.
    pub(crate) fn short(&self) -> io::Error {
        self.is_short.set(true);
        ErrorKind::OutOfMemory.into()
    }
}

/// A reader of an image that copies what it reads, if a page is asked for. So an image that is read from standard input
/// can be read again, and no page is of another image than the results.
#[derive(Drop)]
pub(crate) struct ImageReader<'a, D> {
    pub(crate) device: D,
    pub(crate) copy: Option<&'a PageSource>,
}

impl<D: Read> Read for ImageReader<'_, D> {
    fn read(&mut self, buf: &mut [u8]) -> io::Result<usize> {
        let count = self.device.read(buf)?;
        if let Some(copy) = self.copy {
            if !copy.extend(&buf[..count]) {
                return Err(copy.short());
            }
        }
        Ok(count)
    }
}
