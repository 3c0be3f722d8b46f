//! Summaries: a grid of all cells, and a list of all lines.

ghost use Rattle.std.specs.Prelude.{◌≡◌, ◌+◌, ◌*◌, ◌++◌, ◌<◌, ◌≤◌, ◌^◌, IfOk, OnOk, length, string_bytes};
ghost use Rattle.std.specs.Option.{option_copied};
ghost use Rattle.std.specs.List.{flat_map};
ghost use Rattle.machine_views.specs.Cells.{cell_at};
ghost use Rattle.machine_picture.specs.Pages.{texts_below};
ghost use Rattle.machine_picture.specs.Summaries.{all_lines, bottom, count_text, grid_cell, grid_column, grid_left};
ghost use Rattle.machine_picture.specs.Summaries.{grid_top, grid_width, held_class, lines_below, list_left, list_text};
ghost use Rattle.machine_picture.specs.Summaries.{listed_cell, listed_column, listed_line, mark_text, marked_box};
ghost use Rattle.machine_picture.specs.Summaries.{output_text, place_text, summary};

use crate::elements::{Point, Size, class_of, push_attribute, push_box, push_label, push_span};
use crate::layout::lines_of;
use crate::pages::{column_name, is_stage, push_end, push_page};
use machine_views::{Cell, Cells, Line, MachineView, wires_of};
use std::alloc::{AllocError, Global};
use std::fmt::Write;

/// Where a cell is, in a picture of this many stages.
#[derive(Clone, Copy, Debug, Drop)]
struct Spot {
    stages: u8,
    column: u8,
    row: u8,
}

/// Appends the summary of a view, from its cells.
#[tactic(auto, unfolding(crate::specs::Summaries::summary))]
pub fn push_summary(
    alloc: Global,
    text: &mut String,
    view: &MachineView,
    cells: &Cells,
) -> Result<(), AllocError>
    requires { cells.now.stages ≤ 6 }
    ensures { OnOk result (string_bytes text.new ≡ string_bytes text.old ++ summary view.now cells.now) }
{
    let bottom = bottom(cells);
    let size = Size {
        width: list_left(cells.stages) + 570,
        height: bottom + 70,
    };
    push_page(alloc, text, view, size)?;
    push_grid(alloc, text, cells)?;
    push_list(alloc, text, cells)?;
    push_end(text, bottom)
}

// ---- the grid

/// Appends all columns of the grid.
fn push_grid(alloc: Global, text: &mut String, cells: &Cells) -> Result<(), AllocError>
    requires { cells.now.stages ≤ 6 }
    ensures { OnOk result (string_bytes text.new ≡ string_bytes text.old
        ++ texts_below (grid_column cells.now) (cells.now.stages + 2)) }
{
    for column in 0..cells.stages + 2 {
        push_grid_column(alloc, text, cells, column)?;
    }
    Ok(())
}

/// Appends a column of the grid, with its name.
#[tactic(auto, unfolding(crate::specs::Summaries::grid_column))]
fn push_grid_column(
    alloc: Global,
    text: &mut String,
    cells: &Cells,
    column: u8,
) -> Result<(), AllocError>
    requires { cells.now.stages ≤ 6 }
    ensures { OnOk result (string_bytes text.new ≡ string_bytes text.old ++ grid_column cells.now column) }
{
    let at = Point {
        x: grid_left(column),
        y: 42,
    };
    let name = column_name(alloc, cells.stages, column)?;
    push_label(text, at, "column", name.as_str())?;
    push_grid_cells(alloc, text, cells, column)
}

/// Appends the cells of a column of the grid.
fn push_grid_cells(
    alloc: Global,
    text: &mut String,
    cells: &Cells,
    column: u8,
) -> Result<(), AllocError>
    requires { cells.now.stages ≤ 6 }
    ensures { OnOk result (string_bytes text.new ≡ string_bytes text.old
        ++ texts_below (λ row. grid_cell cells.now.stages column row (cell_at cells.now column row))
        (2 ^ cells.now.stages)) }
{
    for row in 0..wires_of(cells.stages) {
        let spot = Spot {
            stages: cells.stages,
            column,
            row,
        };
        push_grid_cell(alloc, text, spot, cells.cell(column, row))?;
    }
    Ok(())
}

/// Appends a cell of the grid.
#[tactic(auto, unfolding(crate::specs::Summaries::grid_cell))]
fn push_grid_cell(
    alloc: Global,
    text: &mut String,
    spot: Spot,
    cell: Option<&Cell>,
) -> Result<(), AllocError>
    ensures { OnOk result (string_bytes text.new ≡ string_bytes text.old
        ++ grid_cell spot.stages spot.column spot.row (option_copied cell.entry)) }
{
    match cell {
        Some(cell) => push_marked_box(alloc, text, spot, cell),
        None => Ok(()),
    }
}

/// Appends a shaded box with what is written in it.
#[tactic(auto, unfolding(crate::specs::Summaries::marked_box))]
fn push_marked_box(
    alloc: Global,
    text: &mut String,
    spot: Spot,
    cell: &Cell,
) -> Result<(), AllocError>
    ensures { OnOk result (string_bytes text.new ≡ string_bytes text.old
        ++ marked_box spot.stages spot.column spot.row cell.now) }
{
    let (left, top) = (grid_left(spot.column), grid_top(spot.row));
    let corner = Point { x: left, y: top };
    let size = Size {
        width: grid_width(spot.stages, spot.column),
        height: 14,
    };
    let class = held_class(alloc, cell.lines.as_slice().len())?;
    push_box(text, corner, size, class.as_str())?;
    let at = Point {
        x: left + 4,
        y: top + 11,
    };
    let mark = mark_text(alloc, spot, cell)?;
    push_label(text, at, "mark", mark.as_str())
}

/// The left side of a column of the grid.
#[tactic(auto, unfolding(crate::specs::Summaries::grid_left))]
fn grid_left(column: u8) -> u32
    ensures exact { result ≡ grid_left column }
    ensures few { result ≤ 16000 }
{
    match column.checked_sub(1) {
        None => 10,
        Some(stage) => 270 + 60 * u32::from(stage),
    }
}

/// How wide the boxes of a column of the grid are.
#[tactic(auto, unfolding(crate::specs::Summaries::grid_width))]
fn grid_width(stages: u8, column: u8) -> u32
    ensures { result ≡ grid_width stages column }
{
    if column == 0 {
        240
    } else if column <= stages {
        52
    } else {
        76
    }
}

/// The upper side of a row of the grid.
#[tactic(auto, unfolding(crate::specs::Summaries::grid_top))]
fn grid_top(row: u8) -> u32
    ensures exact { result ≡ grid_top row }
    ensures few { result ≤ 5000 }
{
    50 + 16 * u32::from(row) + 4 * u32::from(row / 2)
}

/// The class of a box for this many lines.
fn held_class(alloc: Global, lines: usize) -> Result<String, AllocError>
    ensures { IfOk result (λ class. string_bytes class ≡ held_class lines) }
{
    let level = lines.min(4);
    format!(in alloc; "held{level}")
}

/// What is written in a box.
fn mark_text(alloc: Global, spot: Spot, cell: &Cell) -> Result<String, AllocError>
    ensures { IfOk result (λ mark. string_bytes mark ≡ mark_text spot.stages spot.column cell.now) }
{
    if is_stage(spot.stages, spot.column) {
        count_text(alloc, cell.lines.as_slice().len())
    } else {
        Ok(String::from_str(alloc, cell.title.as_str())?)
    }
}

/// The number of lines, if there are any.
fn count_text(alloc: Global, lines: usize) -> Result<String, AllocError>
    ensures { IfOk result (λ count. string_bytes count ≡ count_text lines) }
{
    if lines == 0 {
        Ok(String::new(alloc))
    } else {
        format!(in alloc; "{lines}")
    }
}

// ---- the list

/// Appends all lines, each after its place.
#[tactic(auto, unfolding(crate::specs::Summaries::list_text))]
fn push_list(alloc: Global, text: &mut String, cells: &Cells) -> Result<(), AllocError>
    requires { cells.now.stages ≤ 6 }
    ensures { OnOk result (string_bytes text.new ≡ string_bytes text.old ++ list_text cells.now) }
{
    text.push_str("<text")?;
    push_attribute(text, "y", 48)?;
    text.push('>')?;
    push_all_listed(alloc, text, cells)?;
    text.push_str("</text>")?;
    text.push('\n')
}

/// Appends the lines of all columns.
fn push_all_listed(alloc: Global, text: &mut String, cells: &Cells) -> Result<(), AllocError>
    requires { cells.now.stages ≤ 6 }
    ensures { OnOk result (string_bytes text.new ≡ string_bytes text.old
        ++ texts_below (listed_column cells.now) (cells.now.stages + 2)) }
{
    for column in 0..cells.stages + 2 {
        push_listed_column(alloc, text, cells, column)?;
    }
    Ok(())
}

/// Appends the lines of a column.
#[tactic(auto, unfolding(crate::specs::Summaries::listed_column))]
fn push_listed_column(
    alloc: Global,
    text: &mut String,
    cells: &Cells,
    column: u8,
) -> Result<(), AllocError>
    requires { cells.now.stages ≤ 6 }
    ensures { OnOk result (string_bytes text.new ≡ string_bytes text.old ++ listed_column cells.now column) }
{
    for row in 0..wires_of(cells.stages) {
        let spot = Spot {
            stages: cells.stages,
            column,
            row,
        };
        push_listed_cell(alloc, text, spot, cells.cell(column, row))?;
    }
    Ok(())
}

/// Appends the lines of a cell.
#[tactic(auto, unfolding(crate::specs::Summaries::listed_cell))]
fn push_listed_cell(
    alloc: Global,
    text: &mut String,
    spot: Spot,
    cell: Option<&Cell>,
) -> Result<(), AllocError>
    ensures { OnOk result (string_bytes text.new ≡ string_bytes text.old
        ++ listed_cell spot.stages spot.column spot.row (option_copied cell.entry)) }
{
    match cell {
        Some(cell) => push_listed_lines(alloc, text, spot, cell.lines.as_slice()),
        None => Ok(()),
    }
}

/// Appends lines, each after the place of their cell.
fn push_listed_lines(
    alloc: Global,
    text: &mut String,
    spot: Spot,
    lines: &[Line],
) -> Result<(), AllocError>
    ensures { OnOk result (string_bytes text.new ≡ string_bytes text.old
        ++ flat_map (listed_line spot.stages spot.column spot.row) lines.now) }
{
    for line in lines {
        push_listed_line(alloc, text, spot, line)?;
    }
    Ok(())
}

/// Appends a line after the place of its cell.
fn push_listed_line(
    alloc: Global,
    text: &mut String,
    spot: Spot,
    line: &Line,
) -> Result<(), AllocError>
    ensures { OnOk result (string_bytes text.new ≡ string_bytes text.old
        ++ listed_line spot.stages spot.column spot.row line.now) }
{
    let mut listed = place_text(alloc, spot)?;
    listed.push_str(line.text.as_str())?;
    let left = list_left(spot.stages);
    push_span(text, left, 14, class_of(line.kind), listed.as_str())
}

/// The place of a cell.
#[tactic(auto, unfolding(crate::specs::Summaries::place_text))]
fn place_text(alloc: Global, spot: Spot) -> Result<String, AllocError>
    ensures { IfOk result (λ place. string_bytes place ≡ place_text spot.stages spot.column spot.row) }
{
    let Spot {
        stages,
        column,
        row,
    } = spot;
    match column.checked_sub(1) {
        None => format!(in alloc; "processor {row}: "),
        Some(stage) => {
            if column <= stages {
                output_text(alloc, stage, row)
            } else {
                format!(in alloc; "module {row}: ")
            }
        }
    }
}

/// The place of an output.
#[tactic(auto, unfolding(crate::specs::Summaries::output_text))]
fn output_text(alloc: Global, stage: u8, wire: u8) -> Result<String, AllocError>
    ensures { IfOk result (λ place. string_bytes place ≡ output_text stage wire) }
{
    let mut text = String::new(alloc);
    write!(text, "stage {stage} wire {wire}: ")?;
    Ok(text)
}

/// The left side of the list.
fn list_left(stages: u8) -> u32
    ensures exact { result ≡ list_left stages }
    ensures few { result ≤ 16000 }
{
    370 + 60 * u32::from(stages)
}

/// The number of lines, of which a cell counts at most 100.
#[tactic(auto, unfolding(crate::specs::Summaries::all_lines))]
fn all_lines(cells: &Cells) -> u32
    requires { cells.now.stages ≤ 6 }
    ensures exact { result ≡ all_lines cells.now }
    ensures few { result ≤ 51200 }
{
    let mut all = 0;
    for column in 0..cells.stages + 2 {
        all += lines_below(cells, column);
    }
    all
}

/// The number of lines in a column, of which a cell counts at most 100.
fn lines_below(cells: &Cells, column: u8) -> u32
    requires { cells.now.stages ≤ 6 }
    ensures exact { result ≡ lines_below cells.now column }
    ensures few { result ≤ 6400 }
{
    let mut lines = 0;
    for row in 0..wires_of(cells.stages) {
        lines += lines_of(cells.cell(column, row)).min(100) as u32;
    }
    lines
}

/// The lower end of the grid and of the list.
fn bottom(cells: &Cells) -> u32
    requires { cells.now.stages ≤ 6 }
    ensures exact { result ≡ bottom cells.now }
    ensures few { result ≤ 1000000 }
{
    grid_top(wires_of(cells.stages)).max(50 + 14 * all_lines(cells))
}
