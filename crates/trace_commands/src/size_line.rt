//! The line of a machine's size.

ghost use Rattle.std.specs.Prelude.{◌≡◌, ◌++◌, codes, OnOk, string_bytes};
ghost use Rattle.std.specs.Fmt.{decimal};
ghost use Rattle.trace_commands.specs.SizeLines.{size_line};

use flat_machine::Config;
use std::alloc::AllocError;
use std::fmt::Write;

/// Appends the line of a machine's size, `machine k K c C b B r R`.
///
/// # Errors
///
/// [`AllocError`] if there is no memory for it.
#[tactic(auto, unfolding(crate::specs::SizeLines::size_line))]
pub fn push_size(text: &mut String, config: Config) -> Result<(), AllocError>
    ensures { OnOk result (string_bytes text.new ≡ string_bytes text.old ++ size_line config) }
{
    let Config { k, c, b, r, .. } = config;
    write!(text, "machine k {k} c {c}")?;
    write!(text, " b {b} r {r}\n")
}
