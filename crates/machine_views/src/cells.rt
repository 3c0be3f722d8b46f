//! The cells of a picture.

ghost use Rattle.std.specs.Prelude.{◌≡◌, ◌++◌, ◌+◌, ◌<◌, ◌≤◌, ◌^◌, IfOk, OnOk, map, string_bytes};
ghost use Rattle.std.specs.Option.{option_copied};
ghost use Rattle.machine_views.specs.Places.{each_below};
ghost use Rattle.machine_views.specs.Cells.{cell_of, column_of, module_cell, module_lines, processor_cell};
ghost use Rattle.machine_views.specs.Cells.{processor_title, switch_lines};
ghost use Rattle.machine_views.specs.Cells.{record_line, record_lines, reply_line, reply_lines, request_line};
ghost use Rattle.machine_views.specs.Cells.{request_lines, cells_of, stages_of, switch_cell, wires_of, word_line};

use crate::cell::{Cell, Cells, Kind, Line, Text};
use crate::module_words::words_of;
use crate::names::Names;
use crate::row::Row;
use crate::texts::{processor_text, record_text, reply_text, request_text, word_text};
use crate::view::{MachineView, PlaceView, ProcessorView, ReplyView, RequestView, SharedWord};
use messages::Record;
use omega_wires::rotate_right;
use std::alloc::{AllocError, Global};

/// All cells of a view, with these names.
///
/// # Errors
///
/// [`AllocError`] if there is no memory for the cells.
#[tactic(auto, unfolding(crate::specs::Cells::cells_of))]
pub fn cells_of(alloc: Global, names: &Names<'_>, view: &MachineView) -> Result<Cells, AllocError>
    ensures exact { IfOk result (λ cells. cells ≡ cells_of names.now view.now) }
    ensures few { IfOk result (λ cells. cells.stages ≤ 6) }
{
    let stages = view.config.k.min(6);
    let columns = columns_of(alloc, names, view, stages)?;
    Ok(Cells { stages, columns })
}

/// The columns of a view that has this many stages.
fn columns_of(
    alloc: Global,
    names: &Names<'_>,
    view: &MachineView,
    stages: u8,
) -> Result<Row<Row<Cell>>, AllocError>
    requires { stages ≤ 6 }
    ensures { IfOk result (λ columns. columns ≡ each_below (column_of names.now view.now) (stages + 2)) }
{
    let mut columns = Vec::new(alloc);
    for column in 0..stages + 2 {
        columns.push(column_of(alloc, names, view, column)?)?;
    }
    Ok(Row::of(columns))
}

/// The cells of a column.
fn column_of(
    alloc: Global,
    names: &Names<'_>,
    view: &MachineView,
    column: u8,
) -> Result<Row<Cell>, AllocError>
    ensures { IfOk result (λ cells. cells ≡ column_of names.now view.now column) }
{
    let mut cells = Vec::new(alloc);
    for row in 0..wires_of(view.config.k.min(6)) {
        cells.push(cell_of(alloc, names, view, column, row)?)?;
    }
    Ok(Row::of(cells))
}

/// The cell of a column and a row.
fn cell_of(
    alloc: Global,
    names: &Names<'_>,
    view: &MachineView,
    column: u8,
    row: u8,
) -> Result<Cell, AllocError>
    requires { row < wires_of view.now }
    ensures { IfOk result (λ cell. cell ≡ cell_of names.now view.now column row) }
{
    match column.checked_sub(1) {
        None => processor_cell(alloc, names, view, row),
        Some(stage) => {
            if column <= view.config.k.min(6) {
                switch_cell(alloc, names, view, stage, row)
            } else {
                module_cell(alloc, names, view, row)
            }
        }
    }
}

/// A processor, with the request in its slot.
fn processor_cell(
    alloc: Global,
    names: &Names<'_>,
    view: &MachineView,
    processor: u8,
) -> Result<Cell, AllocError>
    ensures { IfOk result (λ cell. cell ≡ processor_cell names.now view.now processor) }
{
    let shown = view.processors.as_slice().get(usize::from(processor));
    let title = processor_title(alloc, names, processor, shown)?;
    let mut lines = Vec::new(alloc);
    push_requests(alloc, names, &mut lines, view.place(0, processor))?;
    Ok(Cell {
        title: Text::of(title),
        lines: Row::of(lines),
    })
}

/// The title of a processor.
fn processor_title(
    alloc: Global,
    names: &Names<'_>,
    processor: u8,
    shown: Option<&ProcessorView>,
) -> Result<String, AllocError>
    ensures { IfOk result (λ title. string_bytes title
        ≡ processor_title names.now processor (option_copied shown.entry)) }
{
    match shown {
        Some(shown) => processor_text(alloc, names, processor, shown),
        None => format!(in alloc; "{processor}"),
    }
}

/// An output of a switch, with the input beside it.
fn switch_cell(
    alloc: Global,
    names: &Names<'_>,
    view: &MachineView,
    stage: u8,
    wire: u8,
) -> Result<Cell, AllocError>
    requires stage { stage < stages_of view.now }
    requires wire { wire < wires_of view.now }
    ensures { IfOk result (λ cell. cell ≡ switch_cell names.now view.now stage wire) }
{
    let title = format!(in alloc; "wire {wire}")?;
    let lines = switch_lines(alloc, names, view, stage, wire)?;
    Ok(Cell {
        title: Text::of(title),
        lines,
    })
}

/// The lines of an output of a switch and the input beside it.
fn switch_lines(
    alloc: Global,
    names: &Names<'_>,
    view: &MachineView,
    stage: u8,
    wire: u8,
) -> Result<Row<Line>, AllocError>
    requires stage { stage < stages_of view.now }
    requires wire { wire < wires_of view.now }
    ensures { IfOk result (λ lines. lines ≡ switch_lines names.now view.now stage wire) }
{
    let before = rotate_right(view.config.k.min(6), wire);
    let after = view.place(stage + 1, wire);
    let mut lines = Vec::new(alloc);
    push_replies(alloc, &mut lines, view.place(stage, before))?;
    push_records(alloc, &mut lines, after)?;
    push_requests(alloc, names, &mut lines, after)?;
    Ok(Row::of(lines))
}

/// The module of this number, with the words to which processors refer, and the reply in its slot.
fn module_cell(
    alloc: Global,
    names: &Names<'_>,
    view: &MachineView,
    number: u8,
) -> Result<Cell, AllocError>
    ensures { IfOk result (λ cell. cell ≡ module_cell names.now view.now number) }
{
    let title = format!(in alloc; "module {number}")?;
    let lines = module_lines(alloc, names, view, number)?;
    Ok(Cell {
        title: Text::of(title),
        lines,
    })
}

/// The lines of the module of this number.
fn module_lines(
    alloc: Global,
    names: &Names<'_>,
    view: &MachineView,
    number: u8,
) -> Result<Row<Line>, AllocError>
    ensures { IfOk result (λ lines. lines ≡ module_lines names.now view.now number) }
{
    let stages = view.config.k.min(6);
    let processors = view.processors.as_slice();
    let words = words_of(alloc, wires_of(stages), number, processors)?;
    let mut lines = Vec::new(alloc);
    push_words(alloc, names, &mut lines, words.as_slice())?;
    push_replies(alloc, &mut lines, view.place(stages, number))?;
    Ok(Row::of(lines))
}

/// Appends the requests of a place.
fn push_requests(
    alloc: Global,
    names: &Names<'_>,
    lines: &mut Vec<Line>,
    place: Option<&PlaceView>,
) -> Result<(), AllocError>
    ensures { OnOk result (lines.new.items
        ≡ lines.old.items ++ request_lines names.now (option_copied place.entry)) }
{
    match place {
        Some(place) => push_sent(alloc, names, lines, place.requests.as_slice()),
        None => Ok(()),
    }
}

/// Appends requests.
fn push_sent(
    alloc: Global,
    names: &Names<'_>,
    lines: &mut Vec<Line>,
    all: &[RequestView],
) -> Result<(), AllocError>
    ensures { OnOk result (lines.new.items ≡ lines.old.items ++ map (request_line names.now) all.now) }
{
    for shown in all {
        let text = Text::of(request_text(alloc, names, shown)?);
        lines.push(Line {
            kind: Kind::Request,
            text,
        })?;
    }
    Ok(())
}

/// Appends the wait buffer before a place.
fn push_records(
    alloc: Global,
    lines: &mut Vec<Line>,
    place: Option<&PlaceView>,
) -> Result<(), AllocError>
    ensures { OnOk result (lines.new.items ≡ lines.old.items ++ record_lines (option_copied place.entry)) }
{
    match place {
        Some(place) => push_kept(alloc, lines, place.records.as_slice()),
        None => Ok(()),
    }
}

/// Appends records.
fn push_kept(alloc: Global, lines: &mut Vec<Line>, all: &[Record]) -> Result<(), AllocError>
    ensures { OnOk result (lines.new.items ≡ lines.old.items ++ map record_line all.now) }
{
    for kept in all {
        let text = Text::of(record_text(alloc, kept)?);
        lines.push(Line {
            kind: Kind::Record,
            text,
        })?;
    }
    Ok(())
}

/// Appends the replies of a place.
fn push_replies(
    alloc: Global,
    lines: &mut Vec<Line>,
    place: Option<&PlaceView>,
) -> Result<(), AllocError>
    ensures { OnOk result (lines.new.items ≡ lines.old.items ++ reply_lines (option_copied place.entry)) }
{
    match place {
        Some(place) => push_answers(alloc, lines, place.replies.as_slice()),
        None => Ok(()),
    }
}

/// Appends replies.
fn push_answers(alloc: Global, lines: &mut Vec<Line>, all: &[ReplyView]) -> Result<(), AllocError>
    ensures { OnOk result (lines.new.items ≡ lines.old.items ++ map reply_line all.now) }
{
    for shown in all {
        let text = Text::of(reply_text(alloc, shown)?);
        lines.push(Line {
            kind: Kind::Reply,
            text,
        })?;
    }
    Ok(())
}

/// Appends words.
fn push_words(
    alloc: Global,
    names: &Names<'_>,
    lines: &mut Vec<Line>,
    words: &[SharedWord],
) -> Result<(), AllocError>
    ensures { OnOk result (lines.new.items ≡ lines.old.items ++ map (word_line names.now) words.now) }
{
    for word in words {
        let text = Text::of(word_text(alloc, names, word)?);
        lines.push(Line {
            kind: Kind::Word,
            text,
        })?;
    }
    Ok(())
}

/// How many wires a network of `k` stages has. More than 6 stages count as 6.
pub fn wires_of(k: u8) -> u8
    ensures exact { k ≤ 6 → result ≡ 2 ^ k }
    ensures some { 0 < result }
    ensures few { result ≤ 64 }
{
    match k {
        0 => 1,
        1 => 2,
        2 => 4,
        3 => 8,
        4 => 16,
        5 => 32,
        _ => 64,
    }
}
