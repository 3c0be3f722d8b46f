//! The plot of a column.

ghost use Rattle.std.specs.Prelude.{◌≡◌, ◌≤◌, ◌^◌, ◌++◌, IfOk, OnOk, string_bytes};
ghost use Rattle.run_counts.specs.Lines.{first_lines};
ghost use Rattle.study_rows.specs.Plots.{axes_text, height_of, page_text, plot_text, plot_with, series_at};
ghost use Rattle.study_rows.specs.Scales.{lines_in};

use crate::canvas::{
    push_all_processors, push_axes, push_captions, push_closing, push_heading, push_paper,
    push_style, push_svg, push_ticks,
};
use crate::column::{Column, content_of};
use crate::row::Row;
use crate::scale::{greatest_of, lines_in, step_of};
use crate::series::{Axis, push_series_at};
use std::alloc::{AllocError, Global};

/// The plot of a column of rows by processors, a line for each `b` and `r`.
///
/// # Errors
///
/// [`AllocError`] if there is no memory for it.
pub fn plot_text(alloc: Global, column: Column, rows: &[Row]) -> Result<String, AllocError>
    ensures { IfOk result (λ text. string_bytes text ≡ plot_text column rows.now) }
{
    let step = step_of(greatest_of(column, rows));
    let mut text = String::new(alloc);
    push_plot(&mut text, Axis { column, step }, rows)?;
    Ok(text)
}

/// Appends the plot with an axis of this step.
#[tactic(auto, unfolding(crate::specs::Plots::plot_with))]
fn push_plot(text: &mut String, axis: Axis, rows: &[Row]) -> Result<(), AllocError>
    requires { axis.step ≤ 2 ^ 67 }
    ensures { OnOk result (string_bytes text.new ≡ string_bytes text.old
        ++ plot_with axis.column axis.step rows.now) }
{
    push_page(text, axis.column, height_of(rows))?;
    push_all_axes(text, axis.column, axis.step)?;
    push_all_series(text, axis, rows)?;
    push_closing(text)
}

/// How high the page is.
fn height_of(rows: &[Row]) -> u32
    ensures { result ≡ height_of rows.now }
{
    let legend = 100 + 36 * u32::from(lines_in(rows));
    legend.max(560)
}

/// Appends the page and its heading.
#[tactic(auto, unfolding(crate::specs::Plots::page_text))]
fn push_page(text: &mut String, column: Column, height: u32) -> Result<(), AllocError>
    ensures { OnOk result (string_bytes text.new ≡ string_bytes text.old ++ page_text column height) }
{
    push_svg(text, height)?;
    push_style(text)?;
    push_paper(text, height)?;
    push_heading(text, column)
}

/// Appends the axes with their numbers.
#[tactic(auto, unfolding(crate::specs::Plots::axes_text))]
fn push_all_axes(text: &mut String, column: Column, step: u128) -> Result<(), AllocError>
    requires { step ≤ 2 ^ 67 }
    ensures { OnOk result (string_bytes text.new ≡ string_bytes text.old ++ axes_text column step) }
{
    push_ticks(text, content_of(column), step)?;
    push_all_processors(text)?;
    push_axes(text)?;
    push_captions(text)
}

/// Appends all lines.
fn push_all_series(text: &mut String, axis: Axis, rows: &[Row]) -> Result<(), AllocError>
    ensures { OnOk result (string_bytes text.new ≡ string_bytes text.old
        ++ first_lines (series_at axis.column axis.step rows.now) (lines_in rows.now)) }
{
    let count = lines_in(rows);
    for number in 0..count {
        push_series_at(text, axis, rows, number)?;
    }
    Ok(())
}
