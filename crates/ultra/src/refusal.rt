//! Why a command does not begin.

ghost use Rattle.std.specs.Prelude.{⊤};

use crate::symbols::MAX_SYMBOL_BYTES;
use command_io::{Fault, REFUSED, report_fault};
use host_files::{FileRefusal, refuse};
use search_files::SearchRefusal;
use std::io::Write;

/// Why a command does not begin.
#[derive(Clone, Copy, Debug, Drop)]
pub(crate) enum Refusal<'a> {
    /// A file cannot be had.
    File(FileRefusal<'a>),
    /// A search does not begin.
    Search(SearchRefusal<'a>),
    /// The map of labels is the same file as the text or the image. None is opened.
    SameMap,
    /// A run without a log is asked for on threads, or with a trace.
    NoLog,
    /// There is no memory for what the command line asks for.
    Memory,
    /// Lines are asked for as JSON and in another format.
    Formats,
    /// Lengths of queues are asked for, and latencies.
    Queues,
    /// The file of symbols at this path is too long.
    LongSymbols(&'a str),
}

impl Refusal<'_> {
    /// Reports the refusal on standard error, and returns the exit status.
    pub(crate) fn report_fault<E: Write>(self, err: &mut E) -> u8 {
        match self {
            Refusal::File(refusal) => refusal.report_fault(err),
            Refusal::Search(refusal) => refusal.report_fault(err),
            Refusal::SameMap => refuse("MAP is the same file as FILE or OUT", err),
            Refusal::NoLog => refuse("--no-log goes with --sweep, and not with --trace", err),
            Refusal::Memory => report_fault(Fault::Memory, err),
            Refusal::Formats => {
                refuse(
                    "--json goes with none of --symbols, --abi, --decimal and --csv",
                    err,
                )
            }
            Refusal::Queues => refuse("--queues and --latency exclude each other", err),
            Refusal::LongSymbols(path) => refuse_symbols(path, err),
        }
    }
}

impl<'a> From<FileRefusal<'a>> for Refusal<'a> {
    // No contract speaks of why a command does not begin.
    ghost from_gives = { λ file own. ⊤ };

    fn from(refusal: FileRefusal<'a>) -> Self {
        Refusal::File(refusal)
    }
}

impl<'a> From<SearchRefusal<'a>> for Refusal<'a> {
    // No contract speaks of why a command does not begin.
    ghost from_gives = { λ search own. ⊤ };

    fn from(refusal: SearchRefusal<'a>) -> Self {
        Refusal::Search(refusal)
    }
}

/// Reports that a file of symbols is too long, and returns the exit status.
fn refuse_symbols<E: Write>(path: &str, err: &mut E) -> u8 {
    // If standard error fails too, the exit status alone reports it.
    let _ = writeln!(
        err,
        "error: '{path}' has more than {MAX_SYMBOL_BYTES} bytes"
    );
    REFUSED
}
