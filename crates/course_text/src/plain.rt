//! Lines of the plain grammar.

ghost use Rattle.std.specs.Prelude.{◌≡◌, IfOk, is_ok};
ghost use Rattle.asm_lines.specs.Statements.{line_of};

use asm_lines::{LineError, read_line};
use std::alloc::{AllocError, Global};

/// Whether the plain grammar reads a line.
pub fn is_plain(alloc: Global, line: &[u8]) -> Result<bool, AllocError>
    ensures { IfOk result (λ plain. plain ≡ is_ok (line_of line.now)) }
{
    match read_line(alloc, line) {
        Ok(_) => Ok(true),
        Err(LineError::Memory) => Err(AllocError),
        Err(LineError::Fault(_)) => Ok(false),
    }
}
