//! Where a plot shows the number of a row, and how its axis of numbers is divided.

ghost use Rattle.std.specs.Prelude.{◌≡◌, ◌≤◌, ◌+◌, ◌*◌, ◌^◌, IfSome, count_by};
ghost use Rattle.std.specs.Prelude.{◌==◌};
ghost use Rattle.study_rows.specs.Scales.{are_alike, first_stages, greatest_of, lines_in, powers, shown_number};
ghost use Rattle.study_rows.specs.Scales.{step_at, step_in, step_of, x_of, y_of};

use crate::column::{Column, value_of};
use crate::row::Row;

/// The greatest number that a plot shows.
const MOST_SHOWN: u128 = 1_000_000_000_000_000;

/// The number of a row that a plot shows: a number past [`MOST_SHOWN`] is drawn there.
pub(crate) fn shown_number(column: Column, row: &Row) -> u128
    ensures exact { result ≡ shown_number column row.now }
    ensures few { result ≤ 1000000000000000 }
{
    value_of(row, column).min(MOST_SHOWN)
}

/// The greatest number that a plot shows.
#[tactic(auto, unfolding(crate::specs::Scales::greatest_of))]
pub(crate) fn greatest_of(column: Column, rows: &[Row]) -> u128
    ensures { result ≡ greatest_of column rows.now }
{
    let mut greatest: u128 = 0;
    for row in rows {
        greatest = greatest.max(shown_number(column, row));
    }
    greatest
}

/// The step of the axis: the least of 1, 2, 5, 10, 20, 50 .. that reaches the number in four steps.
pub(crate) fn step_of(number: u128) -> u128
    ensures exact { result ≡ step_of number }
    ensures few { result ≤ 2 ^ 67 }
{
    step_in(&powers(), number)
}

/// The powers of 10 below [`MOST_SHOWN`].
fn powers() -> [u64; 15]
    ensures { result ≡ powers }
{
    [
        1,
        10,
        100,
        1_000,
        10_000,
        100_000,
        1_000_000,
        10_000_000,
        100_000_000,
        1_000_000_000,
        10_000_000_000,
        100_000_000_000,
        1_000_000_000_000,
        10_000_000_000_000,
        100_000_000_000_000,
    ]
}

/// The least of 1, 2 and 5 times the first of these powers with which one reaches the number in four steps.
fn step_in(powers: &[u64], number: u128) -> u128
    ensures exact { result ≡ step_in powers.now number }
    ensures few { result ≤ 2 ^ 67 }
{
    for power in powers {
        if let Some(step) = step_at(*power, number) {
            return step;
        }
    }
    MOST_SHOWN
}

/// The least of 1, 2 and 5 times this power that reaches the number in four steps, if one does.
fn step_at(power: u64, number: u128) -> Option<u128>
    ensures exact { result ≡ step_at power number }
    ensures few { IfSome result (λ step. step ≤ 2 ^ 67) }
{
    let power = u128::from(power);
    if number <= 4 * power {
        Some(power)
    } else if number <= 8 * power {
        Some(2 * power)
    } else if number <= 20 * power {
        Some(5 * power)
    } else {
        None
    }
}

/// How far to the right a machine with this number of stages is.
pub(crate) fn x_of(k: u8) -> u32
    ensures { result ≡ x_of k }
{
    160 + 90 * u32::from(k)
}

/// How far down a number is: 100 above the last for each step.
pub(crate) fn y_of(step: u128, number: u128) -> u32
    requires { number ≤ 1000000000000000 }
    ensures exact { result ≡ y_of step number }
{
    460_u128.saturating_sub(number * 100 / step.max(1)) as u32
}

/// Whether two rows are of one line: of machines with the same `b` and `r`.
pub(crate) fn are_alike(head: &Row, row: &Row) -> bool
    ensures { result ≡ are_alike head.now row.now }
{
    row.size.b == head.size.b && row.size.r == head.size.r
}

/// How many lines there are: as many as rows with the first row's number of stages, at most 51.
pub(crate) fn lines_in(rows: &[Row]) -> u8
    ensures exact { result ≡ lines_in rows.now }
    ensures few { result ≤ 51 }
{
    let stages = first_stages(rows);
    count_with(rows, stages).min(51) as u8
}

/// The number of stages in the first row.
fn first_stages(rows: &[Row]) -> u8
    ensures { result ≡ first_stages rows.now }
{
    match rows.first() {
        Some(row) => row.size.k,
        None => 0,
    }
}

/// How many rows have this number of stages.
fn count_with(rows: &[Row], stages: u8) -> usize
    ensures { result ≡ count_by (λ row. row.size.k == stages) rows.now }
{
    rows.iter().filter(|row| row.size.k == stages).count()
}
