//! The lines at the head of a page's data.

ghost use Rattle.std.specs.Prelude.{◌≡◌, ◌++◌, OnOk, string_bytes};
ghost use Rattle.std.specs.Fmt.{decimal};
ghost use Rattle.std.specs.List.{flat_map};
ghost use Rattle.std.specs.Option.{option_copied};
ghost use Rattle.machine_views.specs.Names.{rows_in};
ghost use Rattle.symbol_table.specs.Rows.{row_of};
ghost use Rattle.page_command.specs.Pages.{counts_line, head_lines, line_of, symbol_line, symbol_lines};

use command_io::push_word;
use flat_machine::Config;
use std::alloc::{AllocError, Global};
use std::fmt::Write;
use symbol_table::{Symbol, SymbolTable};
use trace_commands::push_size;

/// What the data has.
#[derive(Clone, Copy, Debug, Drop)]
pub struct Counts {
    /// The number of shared words of the machine.
    pub words: usize,
    /// The number of steps in the window.
    pub steps: usize,
    /// The number of steps before it.
    pub before: usize,
    /// The number of all steps of the run.
    pub all: usize,
    /// The number of symbols.
    pub symbols: usize,
}

/// Appends the lines at the head of the data.
///
/// # Errors
///
/// [`AllocError`] if there is no memory for them.
#[tactic(auto, unfolding(crate::specs::Pages::head_lines))]
pub fn push_head(text: &mut String, config: Config, counts: Counts) -> Result<(), AllocError>
    ensures { OnOk result (string_bytes text.new ≡ string_bytes text.old ++ head_lines config counts) }
{
    text.push_str("ultra page 1\n")?;
    push_size(text, config)?;
    push_counts(text, counts)?;
    Ok(())
}

/// Appends the line of the counts.
#[tactic(auto, unfolding(crate::specs::Pages::counts_line))]
fn push_counts(text: &mut String, counts: Counts) -> Result<(), AllocError>
    ensures { OnOk result (string_bytes text.new ≡ string_bytes text.old ++ counts_line counts) }
{
    push_count(text, "words ", counts.words)?;
    push_count(text, " steps ", counts.steps)?;
    push_count(text, " from ", counts.before)?;
    push_count(text, " of ", counts.all)?;
    push_count(text, " symbols ", counts.symbols)?;
    text.push('\n')
}

/// Appends a text and a count.
fn push_count(text: &mut String, front: &str, count: usize) -> Result<(), AllocError>
    ensures { OnOk result (string_bytes text.new ≡ string_bytes text.old ++ front.now ++ decimal count) }
{
    text.push_str(front)?;
    write!(text, "{count}")
}

/// Appends a line for each symbol of a table, if there is one.
///
/// # Errors
///
/// [`AllocError`] if there is no memory for them.
pub fn push_symbols(
    alloc: Global,
    text: &mut String,
    symbols: Option<&SymbolTable<'_>>,
) -> Result<(), AllocError>
    ensures { OnOk result (string_bytes text.new
        ≡ string_bytes text.old ++ symbol_lines (rows_in (option_copied symbols.entry))) }
{
    if let Some(symbols) = symbols {
        push_each_symbol(alloc, text, symbols.symbols())?;
    }
    Ok(())
}

/// Appends a line for each of these symbols.
fn push_each_symbol(
    alloc: Global,
    text: &mut String,
    symbols: &[Symbol<'_>],
) -> Result<(), AllocError>
    ensures { OnOk result (string_bytes text.new ≡ string_bytes text.old ++ flat_map line_of symbols.now) }
{
    for symbol in symbols {
        push_symbol(alloc, text, symbol)?;
    }
    Ok(())
}

/// Appends the line of a symbol.
#[tactic(auto, unfolding(crate::specs::Pages::symbol_line))]
fn push_symbol(alloc: Global, text: &mut String, symbol: &Symbol<'_>) -> Result<(), AllocError>
    ensures { OnOk result (string_bytes text.new ≡ string_bytes text.old ++ symbol_line (row_of symbol.now)) }
{
    push_word(alloc, text, symbol.address)?;
    text.push(' ')?;
    push_word(alloc, text, symbol.size)?;
    text.push(' ')?;
    text.push_str(symbol.name)?;
    text.push('\n')?;
    Ok(())
}
