//! `explore --against`: the results of an image that another does not have.

ghost use Rattle.std.specs.Prelude.{◌≡◌, false};

use crate::explore_files::saves_run;
use crate::refusal::SearchRefusal;
use crate::words::words_of;
use command_io::Fault;
use explore_command::SearchProgress;
use host_files::{FileRefusal, Reason, STANDARD, open};
use link::{LinkRead, LinkWrite, Meter};
use observed_results::ObservedWords;
use refinement_command::refinement_command;
use settings::{Explore, Sizes};
use std::alloc::Global;
use std::io::{Input, Write};
use std::rt::Files;
use std::time::Clock;

/// Does what `explore FILE --against SPEC` asks for.
pub(crate) fn compare_files<
    'a,
    R: Files + Input + Clock + Eprint + AllocGlobal,
    W: LinkWrite,
    E: Write,
>(
    rt: &R,
    explore: &Explore<'a>,
    against: &'a str,
    terminal: bool,
    reason: &Reason,
    out: &mut W,
    err: &mut E,
) -> Result<u8, SearchRefusal<'a>>
    requires works { W.has_failed out.old ≡ false }
{
    if explore.every || explore.fair || explore.witness.is_some() || saves_run(explore) {
        return Err(SearchRefusal::Against);
    }
    if explore.file == STANDARD && against == STANDARD {
        return Err(SearchRefusal::File(FileRefusal::InputTwice));
    }
    let words = compared_words(rt.alloc(), explore.observe, &explore.sizes)?;
    let mut program = Meter::new(open(rt, explore.file, reason)?);
    let mut specification = Meter::new(open(rt, against, reason)?);
    let shown = terminal && !explore.quiet;
    match compare_images(
        rt,
        &mut program,
        &mut specification,
        explore,
        &words,
        shown,
        out,
        err,
    ) {
        Ok(status) => Ok(status),
        Err(fault) => Err(SearchRefusal::Specification(against, fault, reason.get())),
    }
}

/// Compares the results of an image with those of its specification. The progress of the searches is shown, if it is
/// asked for.
fn compare_images<
    F: LinkRead,
    S: LinkRead,
    R: Clock + Eprint + AllocGlobal,
    W: LinkWrite,
    E: Write,
>(
    rt: &R,
    program: &mut F,
    specification: &mut S,
    explore: &Explore<'_>,
    words: &ObservedWords,
    shown: bool,
    out: &mut W,
    err: &mut E,
) -> Result<u8, Fault>
    requires reads { F.has_failed program.old ≡ false }
    requires also_reads { S.has_failed specification.old ≡ false }
    requires works { W.has_failed out.old ≡ false }
{
    let alloc = rt.alloc();
    let config = explore.sizes.config();
    let limit = explore.states;
    let mut observer = SearchProgress::new(rt, rt, shown, explore.seconds);
    refinement_command(
        alloc,
        program,
        specification,
        config,
        limit,
        words,
        &mut observer,
        out,
        err,
    )
}

/// The words by which results are compared: those that a list names, or all words of a machine of these sizes if no
/// list is given.
pub(crate) fn compared_words<'a>(
    alloc: Global,
    list: Option<&'a str>,
    sizes: &Sizes,
) -> Result<ObservedWords, SearchRefusal<'a>> {
    if let Some(words) = words_of(alloc, list, sizes)? {
        return Ok(words);
    }
    let last = sizes.words.saturating_sub(1);
    let Ok(all) = format!(in alloc; "0-{last}") else {
        return Err(SearchRefusal::Memory);
    };
    match ObservedWords::of_list(alloc, all.as_str(), sizes.words) {
        Ok(Some(words)) => Ok(words),
        _ => Err(SearchRefusal::Memory),
    }
}
