//! The lines of a plot.

ghost use Rattle.std.specs.Prelude.{◌≡◌, ◌≤◌, ◌+◌, ◌++◌, OnOk, string_bytes};
ghost use Rattle.study_rows.specs.Plots.{curve_text, legend_text, mark_of, marks_of, point_of, points_of, series_at};
ghost use Rattle.study_rows.specs.Plots.{series_of};
ghost use Rattle.study_rows.specs.Scales.{shown_number, x_of, y_of};

use crate::canvas::{
    Pen, Point, push_end, push_key, push_mark, push_point, push_sizes, push_start,
};
use crate::cells::end_text;
use crate::column::Column;
use crate::row::Row;
use crate::scale::{are_alike, shown_number, x_of, y_of};
use std::alloc::AllocError;

/// A column, and the step of the axis of its numbers.
#[derive(Clone, Copy, Drop)]
pub(crate) struct Axis {
    pub(crate) column: Column,
    pub(crate) step: u128,
}

/// Appends the line with this number, which goes through the point of the row with this number, if there is such a row.
pub(crate) fn push_series_at(
    text: &mut String,
    axis: Axis,
    rows: &[Row],
    number: u8,
) -> Result<(), AllocError>
    requires { number ≤ 51 }
    ensures { OnOk result (string_bytes text.new ≡ string_bytes text.old
        ++ series_at axis.column axis.step rows.now number) }
{
    match rows.get(usize::from(number)) {
        Some(head) => push_series(text, axis, head, rows, number),
        None => Ok(()),
    }
}

/// Appends the line with this number, which goes through the point of a row.
fn push_series(
    text: &mut String,
    axis: Axis,
    head: &Row,
    rows: &[Row],
    number: u8,
) -> Result<(), AllocError>
    requires { number ≤ 51 }
    ensures { OnOk result (string_bytes text.new ≡ string_bytes text.old
        ++ series_of axis.column axis.step number head.now rows.now) }
{
    let pen = Pen {
        colour: number % 8,
        dashes: number / 8,
    };
    push_curve(text, axis, pen, head, rows)?;
    push_legend(
        text,
        pen,
        76 + 36 * u32::from(number),
        head.size.b,
        head.size.r,
    )
}

/// Appends the line through the points of the rows that are like this one.
#[tactic(auto, unfolding(crate::specs::Plots::curve_text))]
fn push_curve(
    text: &mut String,
    axis: Axis,
    pen: Pen,
    head: &Row,
    rows: &[Row],
) -> Result<(), AllocError>
    ensures { OnOk result (string_bytes text.new ≡ string_bytes text.old
        ++ curve_text axis.column axis.step pen.colour pen.dashes head.now rows.now) }
{
    push_start(text, pen)?;
    push_points(text, axis, head, rows)?;
    push_end(text)?;
    push_marks(text, axis, pen.colour, head, rows)
}

/// Appends the points of the rows that are like this one.
fn push_points(text: &mut String, axis: Axis, head: &Row, rows: &[Row]) -> Result<(), AllocError>
    ensures { OnOk result (string_bytes text.new ≡ string_bytes text.old
        ++ points_of axis.column axis.step head.now rows.now) }
{
    for row in rows {
        push_point_of(text, axis, head, row)?;
    }
    Ok(())
}

/// Appends the point of a row, if it is like another.
fn push_point_of(text: &mut String, axis: Axis, head: &Row, row: &Row) -> Result<(), AllocError>
    ensures { OnOk result (string_bytes text.new ≡ string_bytes text.old
        ++ point_of axis.column axis.step head.now row.now) }
{
    if are_alike(head, row) {
        push_point(text, place_of(axis, row))
    } else {
        Ok(())
    }
}

/// Appends the marks of the rows that are like this one.
fn push_marks(
    text: &mut String,
    axis: Axis,
    colour: u8,
    head: &Row,
    rows: &[Row],
) -> Result<(), AllocError>
    ensures { OnOk result (string_bytes text.new ≡ string_bytes text.old
        ++ marks_of axis.column axis.step colour head.now rows.now) }
{
    for row in rows {
        push_mark_of(text, axis, colour, head, row)?;
    }
    Ok(())
}

/// Appends the mark of a row, if it is like another.
fn push_mark_of(
    text: &mut String,
    axis: Axis,
    colour: u8,
    head: &Row,
    row: &Row,
) -> Result<(), AllocError>
    ensures { OnOk result (string_bytes text.new ≡ string_bytes text.old
        ++ mark_of axis.column axis.step colour head.now row.now) }
{
    if are_alike(head, row) {
        push_mark(text, colour, end_text(row.end), place_of(axis, row))
    } else {
        Ok(())
    }
}

/// The point of a row.
fn place_of(axis: Axis, row: &Row) -> Point
    ensures across { result.x ≡ x_of row.now.size.k }
    ensures down { result.y ≡ y_of axis.step (shown_number axis.column row.now) }
{
    Point {
        x: x_of(row.size.k),
        y: y_of(axis.step, shown_number(axis.column, row)),
    }
}

/// Appends a line of the legend.
#[tactic(auto, unfolding(crate::specs::Plots::legend_text))]
fn push_legend(text: &mut String, pen: Pen, y: u32, b: u8, r: u8) -> Result<(), AllocError>
    requires { y ≤ 2000 }
    ensures { OnOk result (string_bytes text.new ≡ string_bytes text.old
        ++ legend_text pen.colour pen.dashes y b r) }
{
    push_key(text, pen, y)?;
    push_sizes(text, y + 8, b, r)
}
