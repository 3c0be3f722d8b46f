//! Where sections begin, how much room they have, and how much of it a statement takes.

ghost use Rattle.std.specs.Prelude.{◌≡◌, ◌-◌, ◌^◌, min};
ghost use Rattle.asm_lines.specs.Statements.{stmt_of};
ghost use Rattle.assembler.specs.Meaning.{base_of, room_of, size_of, misplacement};

use crate::fault::AsmFault;
use asm_lines::{Section, Statement};
use flat_machine::{CODE_START, LOCAL_START, SHARED_START};

/// The address at which a section begins.
pub fn base_of(section: Section) -> u32
    ensures { result ≡ base_of section }
{
    match section {
        Section::Code => CODE_START,
        Section::Local => LOCAL_START,
        Section::Shared => SHARED_START,
    }
}

/// The largest number of bytes of a section.
pub fn room_of(section: Section) -> u32
    ensures { result ≡ room_of section }
{
    match section {
        Section::Code | Section::Local => 65_536,
        Section::Shared => 786_432,
    }
}

/// How many bytes a statement places, or the largest `u64` if there are more.
pub fn size_of(statement: &Statement<'_>) -> u64
    ensures { result ≡ min (size_of (stmt_of statement.now)) (2 ^ 64 - 1) }
{
    match statement {
        Statement::Section(_) => 0,
        Statement::Words(values) => (values.len() as u64).saturating_mul(4),
        Statement::Bytes(bytes) => bytes.len() as u64,
        Statement::Zeros(count) => u64::from(*count),
        Statement::Instruction(_) => 4,
    }
}

/// Why a statement is not allowed at this address of a section: an instruction outside code is a fault of form, and an
/// instruction or words at an address not divisible by 4 are out of range.
pub fn misplacement(section: Section, address: u64, statement: &Statement<'_>) -> Option<AsmFault>
    ensures { result ≡ misplacement section address (stmt_of statement.now) }
{
    match (section, statement) {
        (Section::Local | Section::Shared, Statement::Instruction(_)) => Some(AsmFault::Form),
        (Section::Code, Statement::Instruction(_)) | (_, Statement::Words(_)) => {
            if address % 4 == 0 {
                None
            } else {
                Some(AsmFault::Range)
            }
        }
        _ => None,
    }
}
