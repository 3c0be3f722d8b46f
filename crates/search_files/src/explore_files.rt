//! The files of `explore`: the image, and those to which the steps to a result or to a broken property go.

ghost use Rattle.std.specs.Prelude.{◌≡◌, false, IfOk};
ghost use Rattle.trace_commands.specs.run_reports.RunReports.{IsWorking};

use crate::page_source::{ImageReader, PageSource};
use crate::refusal::SearchRefusal;
use crate::run_files::{RunFile, RunFiles, RunLink, RunWriter, file_at_fault};
use crate::run_page::PageForm;
use host_files::{
    Explained, Place, Reason, Source, look_for_page, open_beside_trace, report_place,
};
use link::{Link, Meter};
use page_command::Page;
use settings::Explore;
use std::alloc::{AllocError, Global};
use std::io::{Input, Write};
use std::rt::Files;

/// Whether a file is asked for in which a run is kept.
pub(crate) fn saves_run(explore: &Explore<'_>) -> bool {
    explore.trace.is_some() || explore.page.is_some()
}

/// Opens the image, unless it is to be written. What is read of it is copied if a page is asked for.
pub(crate) fn open_image<'a, 'r, R: Files + Input>(
    rt: &R,
    explore: &Explore<'a>,
    source: &'r PageSource,
    reason: &'r Reason,
) -> Result<ImageReader<'r, Explained<'r, Source<R::File, R::Reader>>>, SearchRefusal<'a>> {
    if let Some(page) = explore.page {
        look_for_page(rt, page, explore.file, explore.trace)?;
    }
    let device = open_beside_trace(rt, explore.file, explore.trace, reason)?;
    let copy = if explore.page.is_some() {
        Some(source)
    } else {
        None
    };
    Ok(ImageReader { device, copy })
}

/// The link to the trace and the page that are asked for, if any are. The page is made as this one is, of other steps.
pub(crate) fn link_of<'a, 'e: 'a, R: Files + AllocGlobal>(
    rt: &'a R,
    explore: &Explore<'e>,
    page: Page<'a>,
    source: &'a PageSource,
    reason: &'a Reason,
) -> Result<Option<RunLink<'a, R>>, SearchRefusal<'e>>
    ensures { IfOk result (IsWorking ⟦<Meter<Explained<'a, RunWriter<'a, R>>> as Link>⟧.has_failed) }
{
    if !saves_run(explore) {
        return Ok(None);
    }
    let alloc = rt.alloc();
    let run = RunFiles {
        files: rt,
        image: explore.file,
        overwrite: true,
        form: PageForm {
            alloc,
            page,
            source,
            words: explore.sizes.words,
        },
        reason,
    };
    match (copy_of(alloc, explore.trace), copy_of(alloc, explore.page)) {
        (Ok(trace), Ok(page)) => Ok(Some(run.link_to(trace, page))),
        _ => Err(SearchRefusal::Memory),
    }
}

/// A copy of a path, if there is one.
fn copy_of(alloc: Global, path: Option<&str>) -> Result<Option<String>, AllocError> {
    match path {
        Some(path) => Ok(Some(format!(in alloc; "{path}")?)),
        None => Ok(None),
    }
}

/// Reports in a second line which file could not be written, if one could not.
pub(crate) fn report_file<R: Files, E: Write>(
    link: &Option<RunLink<'_, R>>,
    explore: &Explore<'_>,
    reason: &Reason,
    err: &mut E,
) {
    let Some(link) = link else {
        return;
    };
    let path = match file_at_fault(link) {
        None => return,
        Some(RunFile::Trace) => explore.trace,
        Some(RunFile::Page) => explore.page,
    };
    if let Some(path) = path {
        report_place(Place::File(path), reason.get(), err);
    }
}
