//! Pictures of small traces. The places of messages are worked out by hand from the wires of the network. Also what is
//! reported if no picture is drawn.

mod ends;
mod names;
mod summaries;
mod travelling;

use super::same;
use link::Meter;
use machine_picture::Svg;
use std::alloc::Global;
use std::io;
use std::test::Fail;
use symbol_table::SymbolTable;
use test_support::metered;
use trace_commands::{Picture, trace_command};

/// The exit status of the command, and what it wrote.
#[derive(Drop)]
struct Ran {
    status: u8,
    out: Vec<u8>,
    err: Vec<u8>,
}

/// The picture of a trace on an image, with this many shared words, after this many steps, without names.
fn run(
    alloc: Global,
    trace: &[u8],
    file: io::Result<&[u8]>,
    shared_words: u32,
    step: Option<u32>,
) -> Ran {
    run_named(alloc, trace, file, shared_words, step, None)
}

/// The same picture, with the names of a table, if there is one.
fn run_named(
    alloc: Global,
    trace: &[u8],
    file: io::Result<&[u8]>,
    shared_words: u32,
    step: Option<u32>,
    names: Option<&SymbolTable<'_>>,
) -> Ran {
    let mut out = Meter::new(Vec::new(alloc));
    let mut err = Vec::new(alloc);
    let picture = Picture {
        step,
        drawing: Svg { names },
    };
    let status = trace_command(
        alloc,
        &mut Meter::new(trace),
        &mut metered(file),
        shared_words,
        &picture,
        &mut out,
        &mut err,
    );
    Ran {
        status,
        out: out.device,
        err,
    }
}

/// The texts of a class in the order of the picture, with `|` between them: the columns from the left, and each column
/// from the top.
fn texts_of(alloc: Global, picture: &str, class: &str) -> Result<String, Fail> {
    let mut texts = String::new(alloc);
    let begin = format!(in alloc; "class='{class}'>")?;
    for part in picture.split(begin.as_str()).skip(1) {
        if !texts.is_empty() {
            texts.push('|')?;
        }
        texts.push_str(part.split('<').next().unwrap_or(""))?;
    }
    Ok(texts)
}
