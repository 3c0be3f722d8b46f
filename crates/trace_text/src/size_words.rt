//! The words of the sizes.

ghost use Rattle.std.specs.Prelude.{◌≡◌, IfOk, map};
ghost use Rattle.trace_text.specs.Lines.{IsSizesOf};
ghost use Rattle.trace_text.specs.Steps.{config_in, size_in, sizes_in, sizes_of};

use crate::fault::TextFault;
use crate::numbers::number_in;
use flat_machine::{
    Config, MAX_COMBINATIONS, MAX_QUEUE_CAPACITY, MAX_STAGES, MAX_WAIT_RECORDS, MIN_QUEUE_CAPACITY,
};

/// The smallest machine with a network of the sizes that words say: `machine k K c C b B r R`.
///
/// # Errors
///
/// [`TextFault::Sizes`] if the words are no sizes, or a size is out of its limits.
#[tactic(auto, using(crate::proofs::Counting::nine_words))]
pub(crate) fn sizes_of(words: &[&[u8]]) -> Result<Config, TextFault>
    ensures sizes { result ≡ sizes_of (map (λ word. word.now) words.now) }
    ensures in_limits { IfOk result IsSizesOf }
{
    match words {
        [machine, k_name, k, c_name, c, b_name, b, r_name, r]
            if *machine == b"machine".as_slice() => {
            sizes_in(k_name, k, c_name, c, b_name, b, r_name, r)
        }
        _ => Err(TextFault::Sizes),
    }
}

/// The sizes that words say after their names.
#[tactic(auto, unfolding(crate::specs::Steps::sizes_in))]
fn sizes_in(
    k_name: &[u8],
    k: &[u8],
    c_name: &[u8],
    c: &[u8],
    b_name: &[u8],
    b: &[u8],
    r_name: &[u8],
    r: &[u8],
) -> Result<Config, TextFault>
    ensures sizes { result ≡ sizes_in k_name.now k.now c_name.now c.now b_name.now b.now r_name.now r.now }
    ensures in_limits { IfOk result IsSizesOf }
{
    let k = size_in(b"k", k_name, k)?;
    let c = size_in(b"c", c_name, c)?;
    let b = size_in(b"b", b_name, b)?;
    let r = size_in(b"r", r_name, r)?;
    config_in(k, c, b, r)
}

/// The size that a word says after a name, which has to be the wanted one.
#[tactic(auto, unfolding(crate::specs::Steps::size_in))]
fn size_in(wanted: &[u8], name: &[u8], number: &[u8]) -> Result<u8, TextFault>
    ensures { result ≡ size_in wanted.now name.now number.now }
{
    if name != wanted {
        return Err(TextFault::Sizes);
    }
    match number_in(number) {
        Ok(size) => Ok(size),
        Err(_) => Err(TextFault::Sizes),
    }
}

/// The machine with a network of these sizes and one shared word, if they are in their limits.
#[tactic(auto, unfolding(crate::specs::Steps::config_in))]
fn config_in(k: u8, c: u8, b: u8, r: u8) -> Result<Config, TextFault>
    ensures sizes { result ≡ config_in k c b r }
    ensures in_limits { IfOk result IsSizesOf }
{
    if k <= MAX_STAGES
        && MIN_QUEUE_CAPACITY <= c
        && c <= MAX_QUEUE_CAPACITY
        && b <= MAX_WAIT_RECORDS
        && 1 <= r
        && r <= MAX_COMBINATIONS
        && r < c
    {
        Ok(Config {
            k,
            c,
            b,
            r,
            shared_words: 1,
        })
    } else {
        Err(TextFault::Sizes)
    }
}
