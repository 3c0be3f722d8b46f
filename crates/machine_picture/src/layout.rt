//! Where the cells are in a whole picture, in its own units.

ghost use Rattle.std.specs.Prelude.{◌≡◌, ◌+◌, ◌*◌, ◌<◌, ◌≤◌, ◌^◌};
ghost use Rattle.std.specs.Option.{option_copied};
ghost use Rattle.machine_views.specs.Cells.{cell_at};
ghost use Rattle.machine_picture.specs.Layouts.{height_of, left_of, letters_in, letters_of, lines_of};
ghost use Rattle.machine_picture.specs.Layouts.{middle_of, text_width, top_of, width_of, x_of};

use machine_views::{Cell, Cells, Kind, wires_of};

/// The letters of the longest text of a cell.
fn letters_in(cell: &Cell) -> usize
    ensures { result ≡ letters_in cell.now }
{
    let mut most = cell.title.letters();
    for line in cell.lines.as_slice() {
        most = most.max(line.text.letters());
    }
    most
}

/// The letters of the longest text of a cell, and 0 if there is none.
#[tactic(auto, unfolding(crate::specs::Layouts::letters_of))]
fn letters_of(cell: Option<&Cell>) -> usize
    ensures { result ≡ letters_of (option_copied cell.entry) }
{
    match cell {
        Some(cell) => letters_in(cell),
        None => 0,
    }
}

/// The number of lines of a cell, and 0 if there is none.
#[tactic(auto, unfolding(crate::specs::Layouts::lines_of))]
pub fn lines_of(cell: Option<&Cell>) -> usize
    ensures { result ≡ lines_of (option_copied cell.entry) }
{
    match cell {
        Some(cell) => cell.lines.as_slice().len(),
        None => 0,
    }
}

/// How wide the longest text of a column is.
#[tactic(auto, unfolding(crate::specs::Layouts::text_width))]
pub fn text_width(cells: &Cells, column: u8) -> u32
    requires { cells.now.stages ≤ 6 }
    ensures exact { result ≡ text_width cells.now column }
    ensures few { result ≤ 700 }
{
    let mut most = 0;
    for row in 0..wires_of(cells.stages) {
        most = most.max(letters_of(cells.cell(column, row)));
    }
    7 * most.max(10).min(100) as u32
}

/// How wide the boxes of a column are.
pub fn width_of(cells: &Cells, column: u8) -> u32
    requires { cells.now.stages ≤ 6 }
    ensures exact { result ≡ width_of cells.now column }
    ensures few { result ≤ 712 }
{
    text_width(cells, column) + 12
}

/// The left side of the boxes of a column.
#[tactic(auto, unfolding(crate::specs::Layouts::left_of))]
pub fn left_of(cells: &Cells, column: u8) -> u32
    requires { cells.now.stages ≤ 6 }
    ensures exact { result ≡ left_of cells.now column }
    ensures few { result ≤ 10 + 762 * column }
    ensures some { 50 * column ≤ result }
{
    let mut left = 10;
    for before in 0..column {
        left += width_of(cells, before) + 50;
    }
    left
}

/// How high a row is.
#[tactic(auto, unfolding(crate::specs::Layouts::height_of))]
pub fn height_of(cells: &Cells, row: u8) -> u32
    requires { cells.now.stages ≤ 6 }
    ensures exact { result ≡ height_of cells.now row }
    ensures some { 26 ≤ result }
    ensures few { result ≤ 1426 }
{
    let mut most = 0;
    for column in 0..cells.stages + 2 {
        most = most.max(lines_of(cells.cell(column, row)));
    }
    14 * most.min(100) as u32 + 26
}

/// The upper side of a row.
#[tactic(auto, unfolding(crate::specs::Layouts::top_of))]
pub fn top_of(cells: &Cells, row: u8) -> u32
    requires { cells.now.stages ≤ 6 }
    ensures exact { result ≡ top_of cells.now row }
    ensures few { result ≤ 50 + 1426 * row }
{
    let mut top = 50;
    for above in 0..row {
        top += height_of(cells, above);
    }
    top
}

/// The middle of a row.
pub fn middle_of(cells: &Cells, row: u8) -> u32
    requires { cells.now.stages ≤ 6 }
    ensures { result ≡ middle_of cells.now row }
{
    top_of(cells, row) + height_of(cells, row) / 2
}

/// Where a line of a box begins, ends or has its middle, if its longest text is this wide.
#[tactic(auto, unfolding(crate::specs::Layouts::x_of))]
pub fn x_of(kind: Kind, left: u32, width: u32) -> u32
    requires left { left ≤ 1000000 }
    requires width { width ≤ 700 }
    ensures { result ≡ x_of kind left width }
{
    match kind {
        Kind::Request => left + 6 + width,
        Kind::Record => left + 6 + width / 2,
        Kind::Reply | Kind::Word => left + 6,
    }
}
