//! The lines of the latencies.

ghost use Rattle.std.specs.Prelude.{◌≡◌, ◌<◌, ◌+◌, ◌*◌, ◌/◌, ◌++◌, ◌^◌, IfOk, OnOk, count_by, length};
ghost use Rattle.std.specs.Prelude.{string_bytes, sum};
ghost use Rattle.run_counts.specs.LatencyLines.{all_line, greatest, histogram_text, hundredths, is_of_power};
ghost use Rattle.run_counts.specs.LatencyLines.{latency_line};
ghost use Rattle.run_counts.specs.LatencyLines.{latency_lines, least, least_text, mean_of, mean_text, numbers_text};
ghost use Rattle.run_counts.specs.LatencyLines.{powers_text, sample_line, sample_lines, subject_line};
ghost use Rattle.run_counts.specs.Lines.{size_text};

use crate::latencies::Latencies;
use crate::samples::Samples;
use std::alloc::{AllocError, Global};
use std::fmt::Write;

/// The lines of the latencies: one of all, and one for each processor and each shared word that has any.
///
/// # Errors
///
/// [`AllocError`] if there is no memory for them.
#[tactic(auto, unfolding(crate::specs::LatencyLines::latency_lines))]
pub fn latencies_text(alloc: Global, latencies: &Latencies) -> Result<String, AllocError>
    ensures { IfOk result (λ text. string_bytes text ≡ latency_lines latencies.now) }
{
    let mut text = String::new(alloc);
    push_all(&mut text, latencies.all.latencies())?;
    push_samples(&mut text, "processor", &latencies.processors)?;
    push_samples(&mut text, "word", &latencies.words)?;
    Ok(text)
}

/// Appends the lines of all places.
fn push_samples(text: &mut String, subject: &str, samples: &Samples) -> Result<(), AllocError>
    ensures { OnOk result (string_bytes text.new ≡ string_bytes text.old ++ sample_lines subject.now samples.now) }
{
    for number in 0..samples.places() {
        push_sample(text, subject, samples, number)?;
    }
    Ok(())
}

/// Appends the line of the latencies at a place, if there are any.
fn push_sample(
    text: &mut String,
    subject: &str,
    samples: &Samples,
    number: usize,
) -> Result<(), AllocError>
    ensures { OnOk result (string_bytes text.new ≡ string_bytes text.old
        ++ sample_line subject.now samples.now number) }
{
    push_subject(text, subject, number, samples.at(number))
}

/// Appends the line of all latencies, if there are any.
fn push_all(text: &mut String, sample: &[usize]) -> Result<(), AllocError>
    ensures { OnOk result (string_bytes text.new ≡ string_bytes text.old ++ all_line sample.now) }
{
    if sample.is_empty() {
        return Ok(());
    }
    text.push_str("latency all")?;
    push_numbers(text, sample)
}

/// Appends the line of a subject, if it has latencies.
fn push_subject(
    text: &mut String,
    subject: &str,
    number: usize,
    sample: &[usize],
) -> Result<(), AllocError>
    ensures { OnOk result (string_bytes text.new ≡ string_bytes text.old
        ++ subject_line subject.now number sample.now) }
{
    if sample.is_empty() {
        return Ok(());
    }
    push_line(text, subject, number, sample)
}

/// Appends the line of a subject's latencies.
#[tactic(auto, unfolding(crate::specs::LatencyLines::latency_line))]
fn push_line(
    text: &mut String,
    subject: &str,
    number: usize,
    sample: &[usize],
) -> Result<(), AllocError>
    requires { 0 < length sample.now }
    ensures { OnOk result (string_bytes text.new ≡ string_bytes text.old
        ++ latency_line subject.now number sample.now) }
{
    write!(text, "latency {subject} {number}")?;
    push_numbers(text, sample)
}

/// Appends what is said of some latencies, to the end of the line.
#[tactic(auto, unfolding(crate::specs::LatencyLines::numbers_text))]
fn push_numbers(text: &mut String, sample: &[usize]) -> Result<(), AllocError>
    requires { 0 < length sample.now }
    ensures { OnOk result (string_bytes text.new ≡ string_bytes text.old ++ numbers_text sample.now) }
{
    push_least(text, sample.len(), least_of(sample))?;
    push_mean(text, total_of(sample), sample.len())?;
    push_histogram(text, sample)
}

/// Appends how many latencies there are, and the least of them.
#[tactic(auto, unfolding(crate::specs::LatencyLines::least_text))]
fn push_least(text: &mut String, count: usize, low: usize) -> Result<(), AllocError>
    ensures { OnOk result (string_bytes text.new ≡ string_bytes text.old ++ least_text count low) }
{
    write!(text, " references {count} least {low}")
}

/// Appends the mean of this many numbers with this sum, rounded down to hundredths.
#[tactic(auto, unfolding(crate::specs::LatencyLines::mean_text))]
fn push_mean(text: &mut String, total: u128, count: usize) -> Result<(), AllocError>
    requires { 0 < count }
    ensures { OnOk result (string_bytes text.new ≡ string_bytes text.old ++ mean_text total count) }
{
    let count = count as u128;
    let whole = total / count;
    let hundredths = total % count * 100 / count;
    let (tens, units) = (hundredths / 10, hundredths % 10);
    write!(text, " mean {whole}.{tens}{units}")
}

/// The mean of some latencies in hundredths of a round, rounded down as in the lines; 0 if there are none. A mean out
/// of range, of latencies that no memory can hold, is refused as out of memory.
///
/// # Errors
///
/// [`AllocError`] if the mean is out of range.
#[tactic(auto, unfolding(crate::specs::LatencyLines::mean_of))]
pub fn mean_of(sample: &[usize]) -> Result<u128, AllocError>
    ensures { IfOk result (λ mean. mean ≡ mean_of sample.now) }
{
    if sample.is_empty() {
        return Ok(0);
    }
    hundredths_of(total_of(sample), sample.len())
}

/// The mean of this many numbers with this sum, in hundredths, rounded down.
fn hundredths_of(total: u128, count: usize) -> Result<u128, AllocError>
    requires { 0 < count }
    ensures { IfOk result (λ mean. mean ≡ (total / count) * 100 + hundredths total count) }
{
    let count = count as u128;
    let Some(whole) = (total / count).checked_mul(100) else {
        return Err(AllocError);
    };
    match whole.checked_add(total % count * 100 / count) {
        Some(mean) => Ok(mean),
        None => Err(AllocError),
    }
}

/// Appends the greatest latency, and how many there are from each power of 2 to below the next.
#[tactic(auto, unfolding(crate::specs::LatencyLines::histogram_text))]
fn push_histogram(text: &mut String, sample: &[usize]) -> Result<(), AllocError>
    ensures { OnOk result (string_bytes text.new ≡ string_bytes text.old ++ histogram_text sample.now) }
{
    let greatest = greatest_of(sample);
    write!(text, " greatest {greatest} rounds")?;
    push_powers(text, sample, 64)?;
    text.push('\n')
}

/// Appends how many latencies there are from each of the first powers of 2 to below the next.
#[tactic(auto, unfolding(crate::specs::LatencyLines::powers_text))]
fn push_powers(text: &mut String, sample: &[usize], powers: u8) -> Result<(), AllocError>
    requires { powers < 65 }
    ensures { OnOk result (string_bytes text.new ≡ string_bytes text.old ++ powers_text sample.now powers) }
{
    for power in 0..powers {
        let count = count_of_power(sample, power);
        push_power(text, power, count)?;
    }
    Ok(())
}

/// Appends how many latencies there are from a power of 2 to below the next, if any.
fn push_power(text: &mut String, power: u8, count: usize) -> Result<(), AllocError>
    requires { power < 64 }
    ensures { OnOk result (string_bytes text.new ≡ string_bytes text.old ++ size_text (2 ^ power) count) }
{
    let low = 1_u64 << power;
    if count == 0 {
        Ok(())
    } else {
        write!(text, " {low}x{count}")
    }
}

/// How many latencies there are from a power of 2 to below the next.
fn count_of_power(sample: &[usize], power: u8) -> usize
    requires { power < 64 }
    ensures { result ≡ count_by (is_of_power power) sample.now }
{
    sample
        .iter()
        .filter(|latency| **latency >> power == 1)
        .count()
}

/// The least of some numbers.
fn least_of(numbers: &[usize]) -> usize
    requires { 0 < length numbers.now }
    ensures { result ≡ least numbers.now }
{
    let mut least = numbers[0];
    for number in numbers {
        least = least.min(*number);
    }
    least
}

/// The greatest of some numbers, or 0 if there are none.
fn greatest_of(numbers: &[usize]) -> usize
    ensures { result ≡ greatest numbers.now }
{
    let mut greatest: usize = 0;
    for number in numbers {
        greatest = greatest.max(*number);
    }
    greatest
}

/// The sum of some numbers.
fn total_of(numbers: &[usize]) -> u128
    ensures { result ≡ sum numbers.now }
{
    let mut total = 0;
    for number in numbers {
        total += *number as u128;
    }
    total
}
