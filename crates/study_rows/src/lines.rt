//! The lines of a study.

ghost use Rattle.std.specs.Prelude.{◌≡◌, ◌++◌, IfOk, OnOk, string_bytes};
ghost use Rattle.study_rows.specs.Texts.{heading_text, line_text, next_cell, next_cells, row_lines, rows_text};

use crate::cells::{Layout, push_cell, push_separator};
use crate::column::{Column, other_columns};
use crate::row::Row;
use std::alloc::{AllocError, Global};

/// The text of rows as lines, below their heading if the layout has one.
///
/// # Errors
///
/// [`AllocError`] if there is no memory for it.
pub fn rows_text(alloc: Global, layout: Layout, rows: &[Row]) -> Result<String, AllocError>
    ensures { IfOk result (λ text. string_bytes text ≡ rows_text layout rows.now) }
{
    let mut text = String::new(alloc);
    push_heading(alloc, &mut text, layout)?;
    push_rows(alloc, &mut text, layout, rows)?;
    Ok(text)
}

/// Appends the heading, if the layout has one.
fn push_heading(alloc: Global, text: &mut String, layout: Layout) -> Result<(), AllocError>
    ensures { OnOk result (string_bytes text.new ≡ string_bytes text.old ++ heading_text layout) }
{
    match layout {
        Layout::Table | Layout::Csv => push_line(alloc, text, layout, None),
        Layout::Lines => Ok(()),
    }
}

/// Appends the lines of rows.
fn push_rows(
    alloc: Global,
    text: &mut String,
    layout: Layout,
    rows: &[Row],
) -> Result<(), AllocError>
    ensures { OnOk result (string_bytes text.new ≡ string_bytes text.old ++ row_lines layout rows.now) }
{
    for row in rows {
        push_line(alloc, text, layout, Some(*row))?;
    }
    Ok(())
}

/// Appends the line of a row, or the heading.
#[tactic(auto, unfolding(crate::specs::Texts::line_text))]
fn push_line(
    alloc: Global,
    text: &mut String,
    layout: Layout,
    row: Option<Row>,
) -> Result<(), AllocError>
    ensures { OnOk result (string_bytes text.new ≡ string_bytes text.old ++ line_text layout row) }
{
    push_cell(alloc, text, layout, row, Column::K)?;
    push_cells(alloc, text, layout, row, &other_columns())?;
    text.push('\n')
}

/// Appends the cells of these columns, each after a separator.
fn push_cells(
    alloc: Global,
    text: &mut String,
    layout: Layout,
    row: Option<Row>,
    columns: &[Column],
) -> Result<(), AllocError>
    ensures { OnOk result (string_bytes text.new ≡ string_bytes text.old ++ next_cells layout row columns.now) }
{
    for column in columns {
        push_next(alloc, text, layout, row, *column)?;
    }
    Ok(())
}

/// Appends a separator and a cell.
fn push_next(
    alloc: Global,
    text: &mut String,
    layout: Layout,
    row: Option<Row>,
    column: Column,
) -> Result<(), AllocError>
    ensures { OnOk result (string_bytes text.new ≡ string_bytes text.old ++ next_cell layout row column) }
{
    push_separator(text, layout)?;
    push_cell(alloc, text, layout, row, column)
}
