//! The cells of lines: the texts of a row, or of the heading, in the columns.

ghost use Rattle.std.specs.Prelude.{◌≡◌, ◌++◌, IfOk, OnOk, replicate, string_bytes};
ghost use Rattle.study_rows.specs.Columns.{cell_text, end_text, hundredths_text, text_as};
ghost use Rattle.study_rows.specs.Texts.{cell, padded, separator, shown};

use crate::column::{Column, Content, content_of, name_of, value_of, width_of};
use crate::row::{Row, RunEnd};
use std::alloc::{AllocError, Global};
use std::fmt::Write;

/// How rows are printed as lines.
#[derive(Clone, Copy, Debug, PartialEq, Eq, Drop)]
pub enum Layout {
    /// A table with columns that are aligned on the right, below a heading.
    Table,
    /// Comma-separated values, below a heading.
    Csv,
    /// A line for each row, with the name of the column before each number. No heading.
    Lines,
}

/// Appends what separates a cell from the one before it.
pub(crate) fn push_separator(text: &mut String, layout: Layout) -> Result<(), AllocError>
    ensures { OnOk result (string_bytes text.new ≡ string_bytes text.old ++ separator layout) }
{
    match layout {
        Layout::Table | Layout::Lines => text.push_str(" "),
        Layout::Csv => text.push_str(","),
    }
}

/// Appends the cell of a column, of a row or of the heading.
pub(crate) fn push_cell(
    alloc: Global,
    text: &mut String,
    layout: Layout,
    row: Option<Row>,
    column: Column,
) -> Result<(), AllocError>
    ensures { OnOk result (string_bytes text.new ≡ string_bytes text.old ++ shown layout column (cell row column)) }
{
    match row {
        None => push_shown(text, layout, column, name_of(column)),
        Some(row) => {
            let cell = cell_of(alloc, &row, column)?;
            push_shown(text, layout, column, cell.as_str())
        }
    }
}

/// The text of a row in a column.
fn cell_of(alloc: Global, row: &Row, column: Column) -> Result<String, AllocError>
    ensures { IfOk result (λ text. string_bytes text ≡ cell_text row.now column) }
{
    let mut text = String::new(alloc);
    push_text(
        &mut text,
        content_of(column),
        row.end,
        value_of(row, column),
    )?;
    Ok(text)
}

/// Appends what a row has in a column with this content.
fn push_text(
    text: &mut String,
    content: Content,
    end: RunEnd,
    number: u128,
) -> Result<(), AllocError>
    ensures { OnOk result (string_bytes text.new ≡ string_bytes text.old ++ text_as content end number) }
{
    match content {
        Content::Count => write!(text, "{number}"),
        Content::Hundredths => push_hundredths(text, number),
        Content::End => text.push_str(end_text(end)),
    }
}

/// The word for how a run ended.
pub(crate) fn end_text(end: RunEnd) -> &'static str
    ensures { result.now ≡ end_text end }
{
    match end {
        RunEnd::Over => "over",
        RunEnd::Fault => "fault",
        RunEnd::Budget => "budget",
    }
}

/// Appends a number of hundredths.
#[tactic(auto, unfolding(crate::specs::Columns::hundredths_text))]
pub(crate) fn push_hundredths(text: &mut String, number: u128) -> Result<(), AllocError>
    ensures { OnOk result (string_bytes text.new ≡ string_bytes text.old ++ hundredths_text number) }
{
    let whole = number / 100;
    let (tens, units) = (number / 10 % 10, number % 10);
    write!(text, "{whole}.{tens}{units}")
}

/// Appends the text of a cell as a layout shows it.
fn push_shown(
    text: &mut String,
    layout: Layout,
    column: Column,
    cell: &str,
) -> Result<(), AllocError>
    ensures { OnOk result (string_bytes text.new ≡ string_bytes text.old ++ shown layout column cell.now) }
{
    match layout {
        Layout::Table => push_padded(text, width_of(column), cell),
        Layout::Csv => text.push_str(cell),
        Layout::Lines => {
            text.push_str(name_of(column))?;
            text.push_str(" ")?;
            text.push_str(cell)
        }
    }
}

/// Appends a text, with blanks before it if it is shorter than this.
fn push_padded(text: &mut String, width: u8, cell: &str) -> Result<(), AllocError>
    ensures { OnOk result (string_bytes text.new ≡ string_bytes text.old ++ padded width cell.now) }
{
    push_blanks(text, usize::from(width).saturating_sub(cell.len()))?;
    text.push_str(cell)
}

/// Appends this many blanks.
fn push_blanks(text: &mut String, count: usize) -> Result<(), AllocError>
    ensures { OnOk result (string_bytes text.new ≡ string_bytes text.old ++ replicate count 32) }
{
    for _ in 0..count {
        text.push(' ')?;
    }
    Ok(())
}
