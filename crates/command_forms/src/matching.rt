//! The words of the command line, as `clap` reads them.
ghost use Rattle.std.specs.Prelude.{◌≡◌, IfOk, map};
ghost use Rattle.clap.specs.Words.{FailsBy, fault_of, subcommand_of, subcommand_rows_of};
ghost use Rattle.command_forms.specs.Commands.{ultra_command};

use crate::command::ultra_shape;
use clap::{ArgMatches, Error};
use std::alloc::Global;

/// Parses the words of a command line, the first of which is the program's name.
///
/// # Errors
///
/// [`Error`] for a mistake in the words, a request for help or for the version, or if out of memory.
pub fn matches_of<'a>(alloc: Global, words: &'a [&'a str]) -> Result<ArgMatches<'a>, Error>
    ensures rows { IfOk result (λ m. subcommand_rows_of m
        ≡ subcommand_of ultra_command (map (λ w. w.now) words.entry.now)) }
    ensures kinds { FailsBy (fault_of ultra_command (map (λ w. w.now) words.entry.now)) result }
{
    ultra_shape(alloc)?.try_get_matches_from(words)
}
