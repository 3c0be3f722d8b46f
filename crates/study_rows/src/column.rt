//! The columns of a study.

ghost use Rattle.std.specs.Prelude.{◌≡◌, MatchOption};
ghost use Rattle.study_rows.specs.Columns.{content_of, name_of, other_columns, title_of, value_of, width_of};

use crate::row::Row;

/// A column of a study.
#[derive(Clone, Copy, Debug, PartialEq, Eq, Drop)]
pub enum Column {
    K,
    B,
    R,
    Processors,
    End,
    Steps,
    Rounds,
    References,
    Serve,
    Combined,
    Requests,
    Records,
    Replies,
    Mean,
}

/// What stands in a column.
#[derive(Clone, Copy, Debug, PartialEq, Eq, Drop)]
pub(crate) enum Content {
    /// Numbers.
    Count,
    /// Numbers in hundredths.
    Hundredths,
    /// How runs ended.
    End,
}

/// The columns after the first, which is `k`.
pub(crate) fn other_columns() -> [Column; 13]
    ensures { result ≡ other_columns }
{
    [
        Column::B,
        Column::R,
        Column::Processors,
        Column::End,
        Column::Steps,
        Column::Rounds,
        Column::References,
        Column::Serve,
        Column::Combined,
        Column::Requests,
        Column::Records,
        Column::Replies,
        Column::Mean,
    ]
}

/// The column of numbers with this name, or None if there is none.
pub fn column_named(name: &str) -> Option<Column>
    ensures { MatchOption result ((column : Column) → name.now ≡ name_of column → column ≡ Column.End)
        (λ column. name.now ≡ name_of column) }
{
    match name {
        "k" => Some(Column::K),
        "b" => Some(Column::B),
        "r" => Some(Column::R),
        "processors" => Some(Column::Processors),
        "steps" => Some(Column::Steps),
        "rounds" => Some(Column::Rounds),
        "references" => Some(Column::References),
        "serve" => Some(Column::Serve),
        "combined" => Some(Column::Combined),
        "requests" => Some(Column::Requests),
        "records" => Some(Column::Records),
        "replies" => Some(Column::Replies),
        "mean" => Some(Column::Mean),
        _ => None,
    }
}

/// The name of a column.
pub(crate) fn name_of(column: Column) -> &'static str
    ensures { result.now ≡ name_of column }
{
    match column {
        Column::K => "k",
        Column::B => "b",
        Column::R => "r",
        Column::Processors => "processors",
        Column::End => "end",
        Column::Steps => "steps",
        Column::Rounds => "rounds",
        Column::References => "references",
        Column::Serve => "serve",
        Column::Combined => "combined",
        Column::Requests => "requests",
        Column::Records => "records",
        Column::Replies => "replies",
        Column::Mean => "mean",
    }
}

/// How wide a column of a table is: as its name, and as the numbers that are usual in it.
pub(crate) fn width_of(column: Column) -> u8
    ensures { result ≡ width_of column }
{
    match column {
        Column::K | Column::R => 1,
        Column::B => 2,
        Column::End => 6,
        Column::Steps | Column::Rounds | Column::Serve => 7,
        Column::Records | Column::Replies => 7,
        Column::Combined | Column::Requests | Column::Mean => 8,
        Column::Processors | Column::References => 10,
    }
}

/// What stands in a column.
pub(crate) fn content_of(column: Column) -> Content
    ensures { result ≡ content_of column }
{
    match column {
        Column::End => Content::End,
        Column::Mean => Content::Hundredths,
        Column::K | Column::B | Column::R | Column::Processors => Content::Count,
        Column::Steps | Column::Rounds | Column::References => Content::Count,
        Column::Serve | Column::Combined => Content::Count,
        Column::Requests | Column::Records | Column::Replies => Content::Count,
    }
}

/// The number of a row in a column, of the mean in hundredths; 0 for how the run ended.
pub(crate) fn value_of(row: &Row, column: Column) -> u128
    ensures { result ≡ value_of row.now column }
{
    let figures = &row.figures;
    match column {
        Column::K => u128::from(row.size.k),
        Column::B => u128::from(row.size.b),
        Column::R => u128::from(row.size.r),
        Column::Processors => u128::from(row.processors),
        Column::End => 0,
        Column::Steps => u128::from(figures.steps),
        Column::Rounds => figures.rounds as u128,
        Column::References => figures.references as u128,
        Column::Serve => u128::from(figures.serve),
        Column::Combined => u128::from(figures.combined),
        Column::Requests => figures.requests as u128,
        Column::Records => figures.records as u128,
        Column::Replies => figures.replies as u128,
        Column::Mean => figures.mean,
    }
}

/// What a column shows, as the heading of its plot.
pub(crate) fn title_of(column: Column) -> &'static str
    ensures { result.now ≡ title_of column }
{
    match column {
        Column::K => "k: stages of the network",
        Column::B => "b: records that an output of a switch holds",
        Column::R => "r: times that a request in a queue is combined",
        Column::Processors => "processors",
        Column::End => "end",
        Column::Steps => "steps",
        Column::Rounds => "rounds of the sweep",
        Column::References => "references",
        Column::Serve => "services of the modules",
        Column::Combined => "combined requests",
        Column::Requests => "longest queue of requests",
        Column::Records => "longest wait buffer: records",
        Column::Replies => "longest queue of replies",
        Column::Mean => "mean latency of references, in rounds",
    }
}
