//! The files in which a run of a search is kept: its trace, its page, or both.

ghost use Rattle.std.specs.Prelude.{◌≡◌, false};

use crate::create_named::CreateNamed;
use crate::run_page::{PageForm, PageWriter};
use command_io::OnFirstWrite;
use host_files::{Explained, Reason};
use link::{Link, Meter};
use std::io::{self, Write};
use std::rt::Files;

/// A writer of a run's trace to its files. The first write opens the file of the trace. The page is written after the
/// trace, in the write of its last byte, so that the command that writes the trace learns that a page fails.
#[derive(Drop)]
pub(crate) struct RunWriter<'a, R: Files> {
    /// The trace, if it is asked for.
    trace: Option<OnFirstWrite<CreateNamed<'a, R>>>,
    /// The page, if it is asked for.
    page: Option<PageWriter<'a, R>>,
    /// Whether the page could not be written.
    lacks_page: bool,
}

impl<R: Files> Write for RunWriter<'_, R> {
    fn write(&mut self, buf: &[u8]) -> io::Result<usize> {
        let count = match &mut self.trace {
            Some(trace) => trace.write(buf)?,
            None => buf.len(),
        };
        if let Some(page) = &mut self.page {
            let beside = match &self.trace {
                Some(trace) => Some(trace.opener.path.as_str()),
                None => None,
            };
            if let Err(error) = page.take(&buf[..count], beside) {
                self.lacks_page = true;
                return Err(error);
            }
        }
        Ok(count)
    }

    fn flush(&mut self) -> io::Result<()> {
        match &mut self.trace {
            Some(trace) => trace.flush(),
            None => Ok(()),
        }
    }
}

/// The link to a run's files. A write that fails leaves its error in a [`Reason`].
pub(crate) type RunLink<'a, R> = Meter<Explained<'a, RunWriter<'a, R>>>;

/// A file in which a run is kept.
#[derive(Clone, Copy, Debug, PartialEq, Eq, Drop)]
pub(crate) enum RunFile {
    Trace,
    Page,
}

/// What the files of the runs of a search have in common.
#[derive(Drop)]
pub(crate) struct RunFiles<'a, R> {
    pub(crate) files: &'a R,
    /// The path of the image, which no file may overwrite.
    pub(crate) image: &'a str,
    /// Whether a file that exists may be overwritten.
    pub(crate) overwrite: bool,
    pub(crate) form: PageForm<'a>,
    pub(crate) reason: &'a Reason,
}

impl<'a, R: Files> RunFiles<'a, R> {
    /// The link to the trace and the page of a run at these paths, which are not open yet.
    pub(crate) fn link_to(&self, trace: Option<String>, page: Option<String>) -> RunLink<'a, R>
        ensures { ⟦<Meter<Explained<'a, RunWriter<'a, R>>> as Link>⟧.has_failed result ≡ false }
    {
        let trace = match trace {
            Some(path) => Some(OnFirstWrite::new(self.file_at(path))),
            None => None,
        };
        let page = match page {
            Some(path) => Some(PageWriter::new(self.form, self.file_at(path))),
            None => None,
        };
        let device = RunWriter {
            trace,
            page,
            lacks_page: false,
        };
        Meter::new(Explained {
            device,
            reason: self.reason,
        })
    }

    /// The file at a path, which is not created yet.
    fn file_at(&self, path: String) -> CreateNamed<'a, R> {
        CreateNamed {
            files: self.files,
            image: self.image,
            path,
            overwrite: self.overwrite,
        }
    }
}

/// Which file of a run could not be written, if one could not.
pub(crate) fn file_at_fault<R: Files>(link: &RunLink<'_, R>) -> Option<RunFile> {
    if !link.failed() {
        None
    } else if link.device.device.lacks_page {
        Some(RunFile::Page)
    } else {
        Some(RunFile::Trace)
    }
}
