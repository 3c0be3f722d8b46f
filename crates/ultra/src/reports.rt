//! Which file an error names.

use host_files::Place;
use settings::{Replay, Settings};
use std::io::{self, Write};

/// Standard error. It keeps the first letter of the code that a command reports there.
#[derive(Drop)]
pub(crate) struct Reports<'a, E> {
    pub(crate) err: &'a mut E,
    pub(crate) letter: Option<u8>,
}

impl<E: Write> Write for Reports<'_, E> {
    fn write(&mut self, buf: &[u8]) -> io::Result<usize> {
        // A command writes the line of a code in one call.
        if let Some(code) = buf.strip_prefix(b"ultra: ".as_slice()) {
            self.letter = code.first().copied();
        }
        self.err.write(buf)
    }

    fn flush(&mut self) -> io::Result<()> {
        self.err.flush()
    }
}

/// What is at fault by the first letter of a code: a text (A, S, V), an image (I), a trace (X), or what cannot be
/// opened or read (`link`); or the budget of a run. None for other codes, which concern no file, and for the trace or
/// page of a search, which `search_files` names.
pub(crate) fn place_of<'a>(settings: &Settings<'a>, letter: u8) -> Option<Place<'a>> {
    match (letter, settings) {
        (b'V' | b'l', Settings::Words(words)) => Some(Place::File(words.file)),
        (b'A' | b'l', Settings::Check(check)) => Some(Place::File(check.file)),
        (b'A' | b'l', Settings::Asm(asm)) => Some(Place::File(asm.file)),
        // The one image of `asm` is the one that it writes.
        (b'I', Settings::Asm(asm)) => Some(Place::File(asm.out)),
        (b'X', Settings::Trace(asked)) => Some(Place::File(asked.trace)),
        (b'S' | b'l', Settings::Steps(schedule)) => Some(Place::File(schedule.file)),
        (b'X', Settings::Steps(schedule)) => Some(Place::File(schedule.out)),
        (b'I', Settings::Dis(dis)) => Some(Place::File(dis.file)),
        (b'I', Settings::Run(run)) => Some(Place::File(run.file)),
        (b'X', Settings::Run(run)) => file(run.trace),
        (b'b', Settings::Run(run)) if !run.unfinished => Some(Place::Budget),
        (b'I', Settings::Explore(explore)) => Some(Place::File(explore.file)),
        (b'I', Settings::Study(study)) => Some(Place::File(study.file)),
        (b'I', Settings::Hunt(hunt)) => Some(Place::File(hunt.file)),
        (b'I', Settings::Debug(session)) => Some(Place::File(session.file)),
        (b'l', Settings::Debug(session)) if session.stdio => Some(Place::StandardStreams),
        (b'l', Settings::Debug(session)) => Some(Place::Port(session.port)),
        (_, Settings::Replay(report)) => place_of_replay(&report.replay, letter),
        (_, Settings::Order(order)) => place_of_replay(&order.lines.replay, letter),
        (_, Settings::Story(story)) => place_of_replay(&story.lines.replay, letter),
        (_, Settings::Stats(counts)) => place_of_replay(&counts.replay, letter),
        (_, Settings::Picture(asked)) => place_of_replay(&asked.replay, letter),
        (_, Settings::Page(asked)) => place_of_replay(&asked.replay, letter),
        _ => None,
    }
}

/// What is at fault by the first letter of a code, if a trace is read and then the image of its run.
fn place_of_replay<'a>(replay: &Replay<'a>, letter: u8) -> Option<Place<'a>> {
    match letter {
        b'X' => Some(Place::File(replay.trace)),
        b'I' | b'l' => Some(Place::File(replay.file)),
        _ => None,
    }
}

/// The file at a path, if there is one.
fn file(path: Option<&str>) -> Option<Place<'_>> {
    match path {
        Some(path) => Some(Place::File(path)),
        None => None,
    }
}
