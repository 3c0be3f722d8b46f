//! The page of a run, made of the run's trace while that is written.

use crate::create_named::CreateNamed;
use crate::page_source::PageSource;
use command_io::{Fault, image_of};
use host_files::{Explained, Reason};
use link::{Meter, write_whole};
use page_command::{Page, Window};
use std::alloc::Global;
use std::io::{self, ErrorKind};
use std::rt::Files;
use trace_commands::{TraceReport, trace_of};

/// What the pages of a search have in common.
#[derive(Clone, Copy, Drop)]
pub(crate) struct PageForm<'a> {
    pub(crate) alloc: Global,
    /// The page of some run, with the names that it shows.
    pub(crate) page: Page<'a>,
    /// The image of the runs.
    pub(crate) source: &'a PageSource,
    /// How many shared words their machine has.
    pub(crate) words: u32,
}

impl PageForm<'_> {
    /// The page of the run that has this trace.
    fn text(&self, trace: &[u8]) -> Result<String, Fault> {
        let Ok(image) = self.source.image.try_borrow() else {
            return Err(Fault::Memory);
        };
        page_text(self.alloc, self.page, trace, image.as_slice(), self.words)
    }
}

/// The page of the run that has this trace and this image: what `ultra page` prints for them. Of a run with more steps
/// than a page shows, it has the last ones.
fn page_text(
    alloc: Global,
    page: Page<'_>,
    trace: &[u8],
    image: &[u8],
    words: u32,
) -> Result<String, Fault> {
    let trace = trace_of(alloc, &mut Meter::new(trace))?;
    let config = trace.config(words);
    let image = image_of(alloc, &mut Meter::new(image), &config)?;
    let page = Page {
        front: page.front,
        back: page.back,
        window: Window::of_last(trace.steps()),
        symbols: page.symbols,
    };
    let (text, _) = page.text(alloc, &image, config, trace.steps())?;
    Ok(text)
}

/// What writes the page of a run when it has taken the last byte of the run's trace.
#[derive(Drop)]
pub(crate) struct PageWriter<'a, R> {
    form: PageForm<'a>,
    /// The bytes of the trace so far.
    trace: Vec<u8>,
    /// What creates the page's file.
    file: CreateNamed<'a, R>,
}

impl<'a, R: Files> PageWriter<'a, R> {
    /// A writer of a page to this file, which has taken nothing.
    pub(crate) fn new(form: PageForm<'a>, file: CreateNamed<'a, R>) -> Self {
        PageWriter {
            form,
            trace: Vec::new(form.alloc),
            file,
        }
    }

    /// Takes the next bytes of the trace. If the trace is whole then, writes the page, unless its file is the one at
    /// `beside`.
    pub(crate) fn take(&mut self, bytes: &[u8], beside: Option<&str>) -> io::Result<()> {
        if self.trace.extend_from_slice(bytes).is_err() {
            return Err(self.form.source.short());
        }
        if size_of_trace(self.trace.as_slice()) != Some(self.trace.len()) {
            return Ok(());
        }
        match self.form.text(self.trace.as_slice()) {
            Ok(text) => self.write(text.as_str(), beside),
            Err(Fault::Memory) => Err(self.form.source.short()),
            // The command has taken these steps on this image.
            Err(_) => Err(ErrorKind::InvalidData.into()),
        }
    }

    /// Writes the text of the page.
    fn write(&mut self, text: &str, beside: Option<&str>) -> io::Result<()> {
        let reason = Reason::new(None);
        let mut file = Meter::new(Explained {
            device: self.file.open_beside(beside)?,
            reason: &reason,
        });
        match write_whole(&mut file, text.as_bytes()) {
            Ok(()) => Ok(()),
            Err(_) => Err(reason.get().unwrap_or(ErrorKind::Other.into())),
        }
    }
}

/// The number of bytes of a trace that begins with these, or None if they are too few to tell. The last four bytes of a
/// trace's header are the number of its steps, the lowest first, and each step has twelve.
fn size_of_trace(bytes: &[u8]) -> Option<usize> {
    let format = *bytes.get(4)?;
    let header = if format == 2 { 16 } else { 12 };
    if bytes.len() < header {
        return None;
    }
    let steps = u32::from_le_bytes([
        bytes[header - 4],
        bytes[header - 3],
        bytes[header - 2],
        bytes[header - 1],
    ]);
    Some(header + 12 * steps as usize)
}
