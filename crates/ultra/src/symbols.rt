//! The names that `--symbols` asks for.

use crate::refusal::Refusal;
use host_files::{FileRefusal, Reason, STANDARD, are_one_file, open};
use link::{Meter, ReadError, read_within};
use settings::{LineStyle, Settings};
use std::io::{ErrorKind, Input};
use std::rt::Files;

/// The most bytes of a file of symbols.
pub(crate) const MAX_SYMBOL_BYTES: usize = 1 << 24;

/// The bytes of the file of symbols that a command is asked for, if it is asked for one.
pub(crate) fn symbol_bytes<'a, R: Files + Input + AllocGlobal>(
    rt: &R,
    settings: &Settings<'a>,
    reason: &Reason,
) -> Result<Option<Vec<u8>>, Refusal<'a>> {
    if has_two_formats(settings) {
        return Err(Refusal::Formats);
    }
    let Some(path) = symbols_of(settings) else {
        return Ok(None);
    };
    if path == STANDARD && reads_standard_input(settings) {
        return Err(Refusal::File(FileRefusal::InputTwice));
    }
    if path != STANDARD
        && (is_file_at(rt, path, trace_of(settings)) || is_file_at(rt, path, page_of(settings)))
    {
        return Err(Refusal::File(FileRefusal::SameFile));
    }
    let mut file = Meter::new(open(rt, path, reason)?);
    match read_within(rt.alloc(), &mut file, MAX_SYMBOL_BYTES) {
        Ok(bytes) => Ok(Some(bytes)),
        Err(ReadError::Link) => {
            let error = reason.get().unwrap_or(ErrorKind::Other.into());
            Err(Refusal::File(FileRefusal::Closed(path, error)))
        }
        Err(ReadError::Memory) => Err(Refusal::Memory),
        Err(ReadError::TooLong) => Err(Refusal::LongSymbols(path)),
    }
}

/// The file of symbols that a command is asked for.
fn symbols_of<'a>(settings: &Settings<'a>) -> Option<&'a str> {
    match settings {
        Settings::Dis(dis) => dis.symbols,
        Settings::Run(run) => run.style.symbols,
        Settings::Hunt(hunt) => hunt.style.symbols,
        Settings::Explore(explore) => explore.style.symbols,
        Settings::Replay(report) => report.style.symbols,
        Settings::Order(order) => order.lines.style.symbols,
        Settings::Story(story) => story.lines.style.symbols,
        Settings::Picture(picture) => picture.symbols,
        Settings::Page(page) => page.symbols,
        _ => None,
    }
}

/// Where a command that prints names writes the trace that it is asked for.
fn trace_of<'a>(settings: &Settings<'a>) -> Option<&'a str> {
    match settings {
        Settings::Run(run) => run.trace,
        Settings::Explore(explore) => explore.trace,
        _ => None,
    }
}

/// Where a command that prints names writes the page that it is asked for.
fn page_of<'a>(settings: &Settings<'a>) -> Option<&'a str> {
    match settings {
        Settings::Explore(explore) => explore.page,
        _ => None,
    }
}

/// Whether a path is given, and names the same file as another.
fn is_file_at<R: Files>(rt: &R, path: &str, other: Option<&str>) -> bool {
    match other {
        Some(other) => are_one_file(rt, path, other),
        None => false,
    }
}

/// Whether lines are asked for as JSON and in another format.
fn has_two_formats(settings: &Settings<'_>) -> bool {
    match settings {
        Settings::Run(run) => is_twofold(&run.style),
        Settings::Hunt(hunt) => is_twofold(&hunt.style),
        Settings::Explore(explore) => is_twofold(&explore.style),
        Settings::Replay(report) => is_twofold(&report.style),
        Settings::Order(order) => {
            is_twofold(&order.lines.style) || (order.lines.style.json && order.abi)
        }
        Settings::Story(story) => is_twofold(&story.lines.style),
        Settings::Stats(counts) => counts.json && counts.csv,
        _ => false,
    }
}

/// Whether a style is JSON and something else.
fn is_twofold(style: &LineStyle<'_>) -> bool {
    style.json && (style.decimal || style.symbols.is_some())
}

/// Whether a path is given, and names standard input.
fn is_standard(path: Option<&str>) -> bool {
    match path {
        Some(path) => path == STANDARD,
        None => false,
    }
}

/// Whether a command that prints names reads standard input.
fn reads_standard_input(settings: &Settings<'_>) -> bool {
    match settings {
        Settings::Dis(dis) => dis.file == STANDARD,
        Settings::Run(run) => run.file == STANDARD,
        Settings::Hunt(hunt) => hunt.file == STANDARD,
        Settings::Explore(explore) => { explore.file == STANDARD || is_standard(explore.against) }
        Settings::Replay(report) => {
            report.replay.trace == STANDARD || report.replay.file == STANDARD
        }
        Settings::Order(order) => {
            order.lines.replay.trace == STANDARD || order.lines.replay.file == STANDARD
        }
        Settings::Story(story) => {
            story.lines.replay.trace == STANDARD || story.lines.replay.file == STANDARD
        }
        Settings::Picture(picture) => {
            picture.replay.trace == STANDARD || picture.replay.file == STANDARD
        }
        Settings::Page(page) => page.replay.trace == STANDARD || page.replay.file == STANDARD,
        _ => false,
    }
}
