//! `hunt`: the runs of an image, their traces and their pages.

ghost use Rattle.std.specs.Prelude.{◌≡◌, false};

use crate::hunt_files::HuntFiles;
use crate::page_source::{ImageReader, PageSource};
use crate::refusal::SearchRefusal;
use crate::run_files::RunFiles;
use crate::run_page::PageForm;
use crate::search_reports::{SearchReports, status_unless_short};
use crate::words::words_of;
use host_files::{Reason, look_for_folder, open};
use hunt_command::{Hunt as Hunted, HuntProgress, NoHuntProgress, Policy, hunt_command};
use link::{LinkWrite, Meter};
use page_command::Page;
use random_schedules::Strategy;
use settings::Hunt;
use std::io::{Input, Write};
use std::rt::Files;
use std::thread::{Threads, available_parallelism};
use std::time::Clock;

/// The greatest number of threads that take runs.
const MOST_JOBS: usize = 64;

/// How many threads take the runs if no number is asked for: as many as the host has processors, or one if it does not
/// say how many.
fn processors(rt: &impl Threads) -> u8 {
    match available_parallelism(rt) {
        Ok(processors) => processors.get().min(MOST_JOBS) as u8,
        Err(_) => 1,
    }
}

/// The depth of the bugs that a hunt by priorities looks for if no depth is given. Of the depths that `bench/hunt`
/// tries, the wrong algorithm that takes the most runs takes the fewest with this one.
const USUAL_DEPTH: u8 = 12;

/// The strategy of the schedules. Only that by priorities takes a depth.
fn strategy_of<'a>(hunt: &Hunt<'a>) -> Result<Strategy, SearchRefusal<'a>> {
    let strategy = match hunt.schedule {
        None => Strategy::Random,
        Some(name) => {
            match Strategy::named(name, hunt.depth.unwrap_or(USUAL_DEPTH)) {
                Some(strategy) => strategy,
                None => return Err(SearchRefusal::NoStrategy(name)),
            }
        }
    };
    match strategy {
        Strategy::Random | Strategy::SweepLike if hunt.depth.is_some() => {
            Err(SearchRefusal::Depth)
        }
        _ => Ok(strategy),
    }
}

/// Does what `hunt FILE` asks for. Its pages are made as this one is, of other steps. The first write to a file opens
/// it. The progress of the hunt is reported on a terminal.
pub fn hunt_file<
    'a,
    R: Files + Input + Threads + Clock + Eprint + Sync + AllocGlobal,
    W: LinkWrite,
    E: Write,
>(
    rt: &R,
    hunt: &Hunt<'a>,
    page: Page<'_>,
    terminal: bool,
    reason: &Reason,
    out: &mut W,
    err: &mut E,
) -> Result<u8, SearchRefusal<'a>>
    requires works { W.has_failed out.old ≡ false }
{
    let words = words_of(rt.alloc(), hunt.observe, &hunt.sizes)?;
    if let Some(prefix) = hunt.trace {
        look_for_folder(rt, prefix)?;
    }
    if let Some(prefix) = hunt.page {
        look_for_folder(rt, prefix)?;
    }
    let strategy = strategy_of(hunt)?;
    let source = PageSource::new(rt.alloc());
    let device = open(rt, hunt.file, reason)?;
    let copy = if hunt.page.is_some() {
        Some(&source)
    } else {
        None
    };
    let mut file = Meter::new(ImageReader { device, copy });
    let config = hunt.sizes.config();
    let runs = Hunted {
        policy: Policy {
            strategy,
            budget: hunt.budget,
        },
        runs: hunt.runs,
        start: hunt.start,
        expect_one: hunt.expect_one,
        observed: words.as_ref(),
    };
    let jobs = hunt.jobs.unwrap_or_else(|| processors(rt));
    let alloc = rt.alloc();
    let mut traces = files_of(rt, hunt, page, &source, reason);
    let mut reports = SearchReports {
        err,
        source: &source,
    };
    let status = if terminal && !hunt.quiet {
        let mut observer = HuntProgress::new(rt, rt);
        hunt_command(
            rt,
            jobs,
            alloc,
            &mut file,
            config,
            runs,
            &mut traces,
            &mut observer,
            out,
            &mut reports,
        )
    } else {
        let mut observer = NoHuntProgress;
        hunt_command(
            rt,
            jobs,
            alloc,
            &mut file,
            config,
            runs,
            &mut traces,
            &mut observer,
            out,
            &mut reports,
        )
    };
    if let Some(files) = &traces {
        files.report_file(&mut reports);
    }
    status_unless_short(status, &source)
}

/// The files to which the traces and the pages of a hunt go, if any are asked for.
fn files_of<'a, 'h: 'a, R: Files + AllocGlobal>(
    rt: &'a R,
    hunt: &Hunt<'h>,
    page: Page<'a>,
    source: &'a PageSource,
    reason: &'a Reason,
) -> Option<HuntFiles<'a, R>> {
    if hunt.trace.is_none() && hunt.page.is_none() {
        return None;
    }
    let alloc = rt.alloc();
    let run = RunFiles {
        files: rt,
        image: hunt.file,
        overwrite: hunt.overwrite,
        form: PageForm {
            alloc,
            page,
            source,
            words: hunt.sizes.words,
        },
        reason,
    };
    Some(HuntFiles::new(alloc, run, hunt.trace, hunt.page))
}
