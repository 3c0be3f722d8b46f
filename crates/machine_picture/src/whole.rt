//! Whole pictures: each cell is in a box, and the wires are drawn.

ghost use Rattle.std.specs.Prelude.{◌≡◌, ◌+◌, ◌++◌, ◌<◌, ◌≤◌, ◌^◌, OnOk, string_bytes, suc};
ghost use Rattle.std.specs.Option.{option_copied};
ghost use Rattle.std.specs.List.{flat_map};
ghost use Rattle.machine_picture.specs.Pages.{texts_below};
ghost use Rattle.machine_picture.specs.WholePictures.{bottom, box_at, box_of, cell_text, column_text, line_text};
ghost use Rattle.machine_picture.specs.WholePictures.{lines_start, page_width, row_before, row_text, shown_text};
ghost use Rattle.machine_picture.specs.WholePictures.{switch_box, whole_picture, wire_into, wires_into};

use crate::elements::{
    Point, Size, class_of, push_attribute, push_box, push_class, push_label, push_span, push_wire,
};
use crate::layout::{height_of, left_of, middle_of, text_width, top_of, width_of, x_of};
use crate::pages::{column_name, is_stage, push_end, push_page};
use machine_views::{Cell, Cells, Line, MachineView, wires_of};
use omega_wires::rotate_right;
use std::alloc::{AllocError, Global};

/// Appends the whole picture of a view, from its cells.
#[tactic(auto, unfolding(crate::specs::WholePictures::whole_picture))]
pub fn push_whole(
    alloc: Global,
    text: &mut String,
    view: &MachineView,
    cells: &Cells,
) -> Result<(), AllocError>
    requires { cells.now.stages ≤ 6 }
    ensures { OnOk result (string_bytes text.new ≡ string_bytes text.old ++ whole_picture view.now cells.now) }
{
    let bottom = top_of(cells, wires_of(cells.stages));
    let size = Size {
        width: page_width(cells),
        height: bottom + 70,
    };
    push_page(alloc, text, view, size)?;
    push_wires(text, cells)?;
    push_columns(alloc, text, cells)?;
    push_end(text, bottom)
}

/// How wide the page is.
fn page_width(cells: &Cells) -> u32
    requires { cells.now.stages ≤ 6 }
    ensures { result ≡ page_width cells.now }
{
    (left_of(cells, cells.stages + 2) - 40).max(660)
}

/// Appends all wires.
fn push_wires(text: &mut String, cells: &Cells) -> Result<(), AllocError>
    requires { cells.now.stages ≤ 6 }
    ensures { OnOk result (string_bytes text.new ≡ string_bytes text.old
        ++ texts_below (wires_into cells.now) (cells.now.stages + 1)) }
{
    for before in 0..cells.stages + 1 {
        push_wires_into(text, cells, before)?;
    }
    Ok(())
}

/// Appends the wires into the column after this one.
fn push_wires_into(text: &mut String, cells: &Cells, before: u8) -> Result<(), AllocError>
    requires stages { cells.now.stages ≤ 6 }
    requires column { before ≤ 6 }
    ensures { OnOk result (string_bytes text.new ≡ string_bytes text.old ++ wires_into cells.now before) }
{
    for row in 0..wires_of(cells.stages) {
        push_wire_into(text, cells, before, row)?;
    }
    Ok(())
}

/// Appends the wire into a row of the column after this one.
#[tactic(auto, unfolding(crate::specs::WholePictures::wire_into))]
fn push_wire_into(text: &mut String, cells: &Cells, before: u8, row: u8) -> Result<(), AllocError>
    requires stages { cells.now.stages ≤ 6 }
    requires column { before ≤ 6 }
    requires row { row < 2 ^ cells.now.stages }
    ensures { OnOk result (string_bytes text.new ≡ string_bytes text.old ++ wire_into cells.now before row) }
{
    let from = Point {
        x: left_of(cells, before) + width_of(cells, before),
        y: middle_of(cells, row_before(cells.stages, before + 1, row)),
    };
    let to = Point {
        x: left_of(cells, before + 1),
        y: middle_of(cells, row),
    };
    push_wire(text, from, to)
}

/// The row from which a wire comes into a row of a column.
fn row_before(stages: u8, column: u8, row: u8) -> u8
    requires stages { stages ≤ 6 }
    requires row { row < 2 ^ stages }
    ensures { result ≡ row_before stages column row }
{
    if column <= stages {
        rotate_right(stages, row)
    } else {
        row
    }
}

/// Appends all columns.
fn push_columns(alloc: Global, text: &mut String, cells: &Cells) -> Result<(), AllocError>
    requires { cells.now.stages ≤ 6 }
    ensures { OnOk result (string_bytes text.new ≡ string_bytes text.old
        ++ texts_below (column_text cells.now) (cells.now.stages + 2)) }
{
    for column in 0..cells.stages + 2 {
        push_column(alloc, text, cells, column)?;
    }
    Ok(())
}

/// Appends a column with its name.
#[tactic(auto, unfolding(crate::specs::WholePictures::column_text))]
fn push_column(
    alloc: Global,
    text: &mut String,
    cells: &Cells,
    column: u8,
) -> Result<(), AllocError>
    requires { cells.now.stages ≤ 6 }
    ensures { OnOk result (string_bytes text.new ≡ string_bytes text.old ++ column_text cells.now column) }
{
    let at = Point {
        x: left_of(cells, column),
        y: 42,
    };
    let name = column_name(alloc, cells.stages, column)?;
    push_label(text, at, "column", name.as_str())?;
    push_rows(text, cells, column)
}

/// Appends the boxes and cells of a column.
fn push_rows(text: &mut String, cells: &Cells, column: u8) -> Result<(), AllocError>
    requires { cells.now.stages ≤ 6 }
    ensures { OnOk result (string_bytes text.new ≡ string_bytes text.old
        ++ texts_below (row_text cells.now column) (2 ^ cells.now.stages)) }
{
    for row in 0..wires_of(cells.stages) {
        push_row(text, cells, column, row)?;
    }
    Ok(())
}

/// Appends a box, if one begins at this row, and the cell.
fn push_row(text: &mut String, cells: &Cells, column: u8, row: u8) -> Result<(), AllocError>
    requires stages { cells.now.stages ≤ 6 }
    requires row { row < 64 }
    ensures { OnOk result (string_bytes text.new ≡ string_bytes text.old ++ row_text cells.now column row) }
{
    push_box_at(text, cells, column, row)?;
    let corner = Point {
        x: left_of(cells, column),
        y: top_of(cells, row),
    };
    push_cell(
        text,
        corner,
        text_width(cells, column),
        cells.cell(column, row),
    )
}

/// Appends the box that begins at this row, if one does.
#[tactic(auto, unfolding(crate::specs::WholePictures::box_at))]
fn push_box_at(text: &mut String, cells: &Cells, column: u8, row: u8) -> Result<(), AllocError>
    requires stages { cells.now.stages ≤ 6 }
    requires row { row < 64 }
    ensures { OnOk result (string_bytes text.new ≡ string_bytes text.old ++ box_at cells.now column row) }
{
    if is_stage(cells.stages, column) {
        push_switch_box(text, cells, column, row)
    } else {
        push_box_of(text, cells, column, row, height_of(cells, row) - 4)
    }
}

/// Appends the box of a switch, if it begins at this row.
#[tactic(auto, unfolding(crate::specs::WholePictures::switch_box))]
fn push_switch_box(text: &mut String, cells: &Cells, column: u8, row: u8) -> Result<(), AllocError>
    requires stages { cells.now.stages ≤ 6 }
    requires row { row < 64 }
    ensures { OnOk result (string_bytes text.new ≡ string_bytes text.old ++ switch_box cells.now column row) }
{
    if row % 2 == 0 {
        let height = height_of(cells, row) + height_of(cells, row + 1) - 4;
        push_box_of(text, cells, column, row, height)
    } else {
        Ok(())
    }
}

/// Appends the box of this height that begins at a row.
#[tactic(auto, unfolding(crate::specs::WholePictures::box_of))]
fn push_box_of(
    text: &mut String,
    cells: &Cells,
    column: u8,
    row: u8,
    height: u32,
) -> Result<(), AllocError>
    requires { cells.now.stages ≤ 6 }
    ensures { OnOk result (string_bytes text.new ≡ string_bytes text.old ++ box_of cells.now column row height) }
{
    let corner = Point {
        x: left_of(cells, column),
        y: top_of(cells, row),
    };
    let size = Size {
        width: width_of(cells, column),
        height,
    };
    push_box(text, corner, size, "box")
}

/// Appends a cell, if there is one.
#[tactic(auto, unfolding(crate::specs::WholePictures::cell_text))]
fn push_cell(
    text: &mut String,
    corner: Point,
    width: u32,
    cell: Option<&Cell>,
) -> Result<(), AllocError>
    requires left { corner.x ≤ 1000000 }
    requires top { corner.y ≤ 1000000 }
    requires width { width ≤ 700 }
    ensures { OnOk result (string_bytes text.new ≡ string_bytes text.old
        ++ cell_text corner.x width corner.y (option_copied cell.entry)) }
{
    match cell {
        Some(cell) => push_shown(text, corner, width, cell),
        None => Ok(()),
    }
}

/// Appends the title of a cell and its lines.
#[tactic(auto, unfolding(crate::specs::WholePictures::shown_text))]
fn push_shown(text: &mut String, corner: Point, width: u32, cell: &Cell) -> Result<(), AllocError>
    requires left { corner.x ≤ 1000000 }
    requires top { corner.y ≤ 1000000 }
    requires width { width ≤ 700 }
    ensures { OnOk result (string_bytes text.new ≡ string_bytes text.old
        ++ shown_text corner.x width corner.y cell.now) }
{
    let at = Point {
        x: corner.x + 6,
        y: corner.y + 14,
    };
    push_lines_start(text, at.y)?;
    push_span(text, at.x, 0, "title", cell.title.as_str())?;
    push_lines(text, corner.x, width, cell.lines.as_slice())?;
    text.push_str("</text>")?;
    text.push('\n')
}

/// Appends the beginning of a text of several lines.
#[tactic(auto, unfolding(crate::specs::WholePictures::lines_start))]
fn push_lines_start(text: &mut String, y: u32) -> Result<(), AllocError>
    ensures { OnOk result (string_bytes text.new ≡ string_bytes text.old ++ lines_start y) }
{
    text.push_str("<text")?;
    push_attribute(text, "y", y)?;
    push_class(text, "cell")?;
    text.push('>')
}

/// Appends the lines of a cell.
fn push_lines(text: &mut String, left: u32, width: u32, lines: &[Line]) -> Result<(), AllocError>
    requires left { left ≤ 1000000 }
    requires width { width ≤ 700 }
    ensures { OnOk result (string_bytes text.new ≡ string_bytes text.old ++ flat_map (line_text left width) lines.now) }
{
    for line in lines {
        push_line(text, left, width, line)?;
    }
    Ok(())
}

/// Appends a line of a cell.
fn push_line(text: &mut String, left: u32, width: u32, line: &Line) -> Result<(), AllocError>
    requires left { left ≤ 1000000 }
    requires width { width ≤ 700 }
    ensures { OnOk result (string_bytes text.new ≡ string_bytes text.old ++ line_text left width line.now) }
{
    let x = x_of(line.kind, left, width);
    push_span(text, x, 14, class_of(line.kind), line.text.as_str())
}
