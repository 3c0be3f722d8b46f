//! The files of this machine to which a hunt's traces and pages go.

ghost use Rattle.std.specs.Prelude.{◌≡◌, ⊤, false, IfOk};

use crate::run_files::{RunFile, RunFiles, RunLink, file_at_fault};
use host_files::{Place, report_place};
use hunt_command::Traces;
use std::alloc::{AllocError, Global};
use std::fs;
use std::io::Write;
use std::rt::Files;

/// The end of the name of a trace.
const TRACE_END: &str = ".trace";

/// The end of the name of a page.
const PAGE_END: &str = ".html";

/// Files whose names are a prefix, the number of a run and `.trace` or `.html`.
#[derive(Drop)]
pub(crate) struct HuntFiles<'a, R> {
    alloc: Global,
    run: RunFiles<'a, R>,
    /// The prefix of the traces, if they are asked for.
    trace: Option<&'a str>,
    /// The prefix of the pages, if they are asked for.
    page: Option<&'a str>,
    /// The number of the run whose files were opened last.
    number: u32,
    /// Which of these could not be written.
    at_fault: Option<RunFile>,
}

impl<'a, R: Files> HuntFiles<'a, R> {
    /// Files with these prefixes, none of which is open.
    pub(crate) fn new(
        alloc: Global,
        run: RunFiles<'a, R>,
        trace: Option<&'a str>,
        page: Option<&'a str>,
    ) -> Self {
        HuntFiles {
            alloc,
            run,
            trace,
            page,
            number: 0,
            at_fault: None,
        }
    }

    /// Whether a file with this prefix, number and end exists, even as a link to nothing.
    fn is_file(&self, prefix: Option<&str>, number: u32, end: &str) -> Result<bool, AllocError> {
        match path_of(self.alloc, prefix, number, end)? {
            Some(path) => Ok(fs::symlink_metadata(self.run.files, path.as_str()).is_ok()),
            None => Ok(false),
        }
    }

    /// Reports in a second line which file could not be written, if one could not.
    pub(crate) fn report_file<E: Write>(&self, err: &mut E) {
        let (prefix, end) = match self.at_fault {
            None => return,
            Some(RunFile::Trace) => (self.trace, TRACE_END),
            Some(RunFile::Page) => (self.page, PAGE_END),
        };
        if let Ok(Some(path)) = path_of(self.alloc, prefix, self.number, end) {
            report_place(Place::File(path.as_str()), self.run.reason.get(), err);
        }
    }
}

/// The path with this prefix, number and end, if there is a prefix.
fn path_of(
    alloc: Global,
    prefix: Option<&str>,
    number: u32,
    end: &str,
) -> Result<Option<String>, AllocError> {
    match prefix {
        Some(prefix) => Ok(Some(format!(in alloc; "{prefix}{number}{end}")?)),
        None => Ok(None),
    }
}

impl<'a, R: Files> Traces for HuntFiles<'a, R> {
    type Writer = RunLink<'a, R>;

    // No contract knows which files there are, and what they hold.
    ghost finds = { λ files number is_there. ⊤ };

    ghost opens = { λ files number writer after. ⊤ };

    ghost closes = { λ files writer after. ⊤ };

    fn is_there(&self, number: u32) -> Result<bool, AllocError> {
        if self.run.overwrite {
            return Ok(false);
        }
        Ok(
            self.is_file(self.trace, number, TRACE_END)?
                || self.is_file(self.page, number, PAGE_END)?,
        )
    }

    fn tell_there<E: Write>(&self, number: u32, err: &mut E) {
        let (prefix, end) = match (self.trace, self.page) {
            (Some(prefix), None) => (prefix, TRACE_END),
            (None, Some(prefix)) => (prefix, PAGE_END),
            (None, None) => return,
            (Some(trace), Some(page)) => match self.is_file(self.trace, number, TRACE_END) {
                Ok(false) => (page, PAGE_END),
                _ => (trace, TRACE_END),
            },
        };
        // If standard error fails too, the exit status alone reports it.
        let _ = writeln!(err, "error: {prefix}{number}{end} exists: use --overwrite");
    }

    fn open(&mut self, number: u32) -> Result<RunLink<'a, R>, AllocError> {
        let trace = path_of(self.alloc, self.trace, number, TRACE_END)?;
        let page = path_of(self.alloc, self.page, number, PAGE_END)?;
        self.number = number;
        Ok(self.run.link_to(trace, page))
    }

    fn close(&mut self, writer: RunLink<'a, R>) {
        self.at_fault = file_at_fault(&writer);
    }
}
