//! The lines of the counts.

ghost use Rattle.std.specs.Prelude.{◌≡◌, ◌≤◌, ◌+◌, ◌*◌, ◌++◌, IfOk, OnOk, slice_index, string_bytes};
ghost use Rattle.run_counts.specs.Lines.{first_lines, lines_of, longest_text, module_line, module_sizes};
ghost use Rattle.run_counts.specs.Lines.{processor_line, rest_of_total, size_text, sizes_text, stage_line};
ghost use Rattle.run_counts.specs.Lines.{total_line};

use crate::counts::Counts;
use crate::longest::{Held, Longest};
use std::alloc::{AllocError, Global};
use std::fmt::Write;

/// The lines of the counts, longest queues and rounds of a machine of `2^k` processors.
///
/// # Errors
///
/// [`AllocError`] if there is no memory for them.
#[tactic(auto, unfolding(crate::specs::Lines::lines_of))]
pub fn counts_text(
    alloc: Global,
    counts: &Counts,
    longest: &Longest,
    rounds: usize,
    k: u8,
) -> Result<String, AllocError>
    requires { k ≤ 6 }
    ensures { IfOk result (λ text. string_bytes text ≡ lines_of k counts.now longest.now rounds) }
{
    let mut text = String::new(alloc);
    push_total(&mut text, counts, rounds)?;
    push_stages(&mut text, counts, longest, k)?;
    let count = 1_u8 << k;
    push_modules(&mut text, counts, count)?;
    push_processors(&mut text, counts, count)?;
    Ok(text)
}

/// Appends how many steps there were, how many of each kind, and in how many rounds.
#[tactic(auto, unfolding(crate::specs::Lines::total_line))]
fn push_total(text: &mut String, counts: &Counts, rounds: usize) -> Result<(), AllocError>
    ensures { OnOk result (string_bytes text.new ≡ string_bytes text.old ++ total_line counts.now rounds) }
{
    let steps = counts.step_count();
    let turns = counts.kinds.at(0);
    let up = counts.kinds.at(1);
    write!(text, "steps {steps} turns {turns} up {up}")?;
    push_rest(text, counts, rounds)
}

/// Appends how many services, moves of replies, writes from outside and rounds there were.
#[tactic(auto, unfolding(crate::specs::Lines::rest_of_total))]
fn push_rest(text: &mut String, counts: &Counts, rounds: usize) -> Result<(), AllocError>
    ensures { OnOk result (string_bytes text.new ≡ string_bytes text.old ++ rest_of_total counts.now rounds) }
{
    let serve = counts.kinds.at(2);
    let down = counts.kinds.at(3);
    let poke = counts.kinds.at(4);
    write!(text, " serve {serve} down {down} poke {poke}")?;
    write!(text, " rounds {rounds}\n")
}

/// Appends the lines of the stages.
fn push_stages(
    text: &mut String,
    counts: &Counts,
    longest: &Longest,
    k: u8,
) -> Result<(), AllocError>
    ensures { OnOk result (string_bytes text.new ≡ string_bytes text.old
        ++ first_lines (stage_line counts.now longest.now) k) }
{
    for stage in 0..k {
        push_stage(text, counts, longest, stage)?;
    }
    Ok(())
}

/// Appends how many messages moved through a stage, were combined there and were split there, and how long its queues
/// grew.
#[tactic(auto, unfolding(crate::specs::Lines::stage_line))]
fn push_stage(
    text: &mut String,
    counts: &Counts,
    longest: &Longest,
    stage: u8,
) -> Result<(), AllocError>
    ensures { OnOk result (string_bytes text.new ≡ string_bytes text.old ++ stage_line counts.now longest.now stage) }
{
    let place = u16::from(stage);
    let up = counts.moved.at(place);
    let combined = counts.combined.at(place);
    let down = counts.returned.at(place);
    let split = counts.split.at(place);
    write!(
        text,
        "stage {stage} up {up} combined {combined} down {down} split {split}"
    )?;
    push_longest(text, longest, stage)
}

/// Appends the most that one list of a stage held at once.
#[tactic(auto, unfolding(crate::specs::Lines::longest_text))]
fn push_longest(text: &mut String, longest: &Longest, stage: u8) -> Result<(), AllocError>
    ensures { OnOk result (string_bytes text.new ≡ string_bytes text.old ++ longest_text longest.now stage) }
{
    let requests = longest.at(Held::Requests, stage);
    let records = longest.at(Held::Records, stage);
    let replies = longest.at(Held::Replies, stage);
    write!(
        text,
        " requests {requests} records {records} replies {replies}\n"
    )
}

/// Appends the lines of the modules.
fn push_modules(text: &mut String, counts: &Counts, modules: u8) -> Result<(), AllocError>
    ensures { OnOk result (string_bytes text.new ≡ string_bytes text.old
        ++ first_lines (module_line counts.now) modules) }
{
    for at in 0..modules {
        push_module(text, counts, at)?;
    }
    Ok(())
}

/// Appends how many requests a module served, and for groups of which sizes.
#[tactic(auto, unfolding(crate::specs::Lines::module_line))]
fn push_module(text: &mut String, counts: &Counts, at: u8) -> Result<(), AllocError>
    ensures { OnOk result (string_bytes text.new ≡ string_bytes text.old ++ module_line counts.now at) }
{
    let served = counts.served.at(u16::from(at));
    write!(text, "module {at} serves {served}")?;
    push_sizes(text, counts, at)?;
    text.push('\n')
}

/// Appends how many groups of each size a module served.
#[tactic(auto, unfolding(crate::specs::Lines::module_sizes))]
fn push_sizes(text: &mut String, counts: &Counts, at: u8) -> Result<(), AllocError>
    ensures { OnOk result (string_bytes text.new ≡ string_bytes text.old ++ module_sizes counts.now.groups at) }
{
    push_first_sizes(text, counts, at, 65)
}

/// Appends how many groups of each size below `sizes` a module served.
#[tactic(auto, unfolding(crate::specs::Lines::sizes_text))]
fn push_first_sizes(text: &mut String, counts: &Counts, at: u8, sizes: u8) -> Result<(), AllocError>
    ensures { OnOk result (string_bytes text.new ≡ string_bytes text.old ++ sizes_text counts.now.groups at sizes) }
{
    for size in 0..sizes {
        let count = count_of(counts, at, size);
        push_size(text, size, count)?;
    }
    Ok(())
}

/// How many groups of a size a module served.
fn count_of(counts: &Counts, at: u8, size: u8) -> u64
    ensures { result ≡ slice_index counts.now.groups (at * 65 + size) }
{
    counts.groups.at(u16::from(at) * 65 + u16::from(size))
}

/// Appends how many groups of a size there were, if any.
fn push_size(text: &mut String, size: u8, count: u64) -> Result<(), AllocError>
    ensures { OnOk result (string_bytes text.new ≡ string_bytes text.old ++ size_text size count) }
{
    if count == 0 {
        Ok(())
    } else {
        write!(text, " {size}x{count}")
    }
}

/// Appends the lines of the processors.
fn push_processors(text: &mut String, counts: &Counts, processors: u8) -> Result<(), AllocError>
    ensures { OnOk result (string_bytes text.new ≡ string_bytes text.old
        ++ first_lines (processor_line counts.now) processors) }
{
    for p in 0..processors {
        push_processor(text, counts, p)?;
    }
    Ok(())
}

/// Appends how many turns a processor had, and how many of its instructions retired.
#[tactic(auto, unfolding(crate::specs::Lines::processor_line))]
fn push_processor(text: &mut String, counts: &Counts, p: u8) -> Result<(), AllocError>
    ensures { OnOk result (string_bytes text.new ≡ string_bytes text.old ++ processor_line counts.now p) }
{
    let place = u16::from(p);
    let turns = counts.turns.at(place);
    let retired = counts.retired.at(place);
    write!(text, "processor {p} turns {turns} retired {retired}\n")
}
