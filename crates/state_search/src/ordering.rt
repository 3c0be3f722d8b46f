//! Ordered rows: in each class of processors the numbers increase.

ghost use Rattle.std.specs.Prelude.{◌≡◌, ◌<◌, ◌≤◌, length, slice_index};
ghost use Rattle.state_search.specs.Rows.{IsRowExchanged, traded_row};

use state_store::StateVector;

/// Exchanges the processors of a row within their classes. If only the number of `processor` is out of order, the
/// numbers of each class increase afterwards. The holders at the places, if any, are exchanged with them.
// The contract does not promise an order: a row that is out of order costs extra states, and nothing else.
pub fn canonical<const N: usize>(
    row: &StateVector<N>,
    classes: &[u8],
    processor: usize,
    holders: &mut [u8],
) -> StateVector<N>
    requires few { length classes.now < N }
    requires narrow { N ≤ 65 }
    requires there { processor < length classes.now }
    ensures { IsRowExchanged classes.now row.now result }
{
    let mut new = *row;
    let mut at = processor;
    for next in processor + 1..classes.len() {
        at = step(&mut new, classes, at, next, at, holders);
    }
    for back in 0..processor {
        at = step(&mut new, classes, processor - 1 - back, at, at, holders);
    }
    new
}

/// Trades two processors if they are of one class and the first has the greater number. Returns where the processor
/// that was at `at`, one of the two places, is afterwards.
fn step<const N: usize>(
    row: &mut StateVector<N>,
    classes: &[u8],
    first: usize,
    second: usize,
    at: usize,
    holders: &mut [u8],
) -> usize
    requires few { length classes.now < N }
    requires narrow { N ≤ 65 }
    requires first { first < length classes.now }
    requires second { second < length classes.now }
    requires at { at < length classes.now }
    ensures exchanged { IsRowExchanged classes.now row.old row.new }
    ensures there { result < length classes.now }
{
    if classes[first] != classes[second] || row[first] <= row[second] {
        return at;
    }
    trade(row, classes, first, second, holders);
    if at == first { second } else { first }
}

/// Trades two processors of one class in a row, and the holders at their places, if any.
pub fn trade<const N: usize>(
    row: &mut StateVector<N>,
    classes: &[u8],
    first: usize,
    second: usize,
    holders: &mut [u8],
)
    requires few { length classes.now < N }
    requires narrow { N ≤ 65 }
    requires first { first < length classes.now }
    requires second { second < length classes.now }
    requires alike { slice_index classes.now first ≡ slice_index classes.now second }
    ensures { IsRowExchanged classes.now row.old row.new }
{
    trade_numbers(row, first, second);
    trade_holders(holders, first, second);
}

/// Trades the numbers at two places.
fn trade_numbers<const N: usize>(row: &mut StateVector<N>, first: usize, second: usize)
    requires first { first < N }
    requires second { second < N }
    requires narrow { N ≤ 65 }
    ensures { row.new ≡ traded_row row.old first second }
{
    let number = row[first];
    row[first] = row[second];
    row[second] = number;
}

/// Trades the holders at two places, if there are any.
fn trade_holders(holders: &mut [u8], first: usize, second: usize) {
    if first < holders.len() && second < holders.len() {
        let holder = holders[first];
        holders[first] = holders[second];
        holders[second] = holder;
    }
}
