//! How many bytes each section has, for alignments.

ghost use Rattle.std.specs.Prelude.{◌≡◌, IfOk, OnOk, length, option_map};
ghost use Rattle.asm_lines.specs.Statements.{stmt_of};
ghost use Rattle.asm_lines.specs.Text.{parts_at};
ghost use Rattle.course_text.specs.Places.{count, grown, after_statement, after, after_text};

use asm_lines::{LineError, Section, Statement, parts_at, read_line};
use assembler::size_of;
use std::alloc::{AllocError, Global};

/// The section of the next line, and the number of bytes in each section, modulo 2^32.
#[derive(Clone, Copy, Debug, Drop)]
pub struct Place {
    pub section: Section,
    pub code: u32,
    pub local: u32,
    pub shared: u32,
}

/// More bytes than a statement of a text can have.
const MANY: u64 = 0x4000_0000_0000_0000;

impl Place {
    /// The bytes of the section of the next line.
    pub fn count(&self) -> u32
        ensures { result ≡ count self.now }
    {
        match self.section {
            Section::Code => self.code,
            Section::Local => self.local,
            Section::Shared => self.shared,
        }
    }

    /// Adds bytes to the section of the next line.
    fn grow(&mut self, bytes: u64)
        ensures { self.new ≡ grown self.old.section bytes self.old }
    {
        let more = (bytes % 0x1_0000_0000) as u32;
        match self.section {
            Section::Code => self.code = self.code.wrapping_add(more),
            Section::Local => self.local = self.local.wrapping_add(more),
            Section::Shared => self.shared = self.shared.wrapping_add(more),
        }
    }

    /// Moves past a statement.
    fn pass_statement(&mut self, statement: &Option<Statement<'_>>) -> Result<(), AllocError>
        ensures { OnOk result (self.new ≡ after_statement self.old (option_map stmt_of statement.now)) }
    {
        match statement {
            None => {}
            Some(Statement::Section(section)) => self.section = *section,
            Some(statement) => {
                let size = size_of(statement);
                if size >= MANY {
                    return Err(AllocError);
                }
                self.grow(size);
            }
        }
        Ok(())
    }

    /// Moves past a plain line.
    #[tactic(auto, unfolding(crate::specs::Places::after))]
    fn pass_line(&mut self, alloc: Global, line: &[u8]) -> Result<(), AllocError>
        ensures { OnOk result (self.new ≡ after self.old line.now) }
    {
        match read_line(alloc, line) {
            Ok(said) => self.pass_statement(&said.statement),
            Err(LineError::Memory) => Err(AllocError),
            Err(LineError::Fault(_)) => Ok(()),
        }
    }

    /// Moves past the plain lines of a text, and returns how many they are.
    ///
    /// # Errors
    ///
    /// [`AllocError`] if memory is short, or if a line has more than 2^62 bytes.
    pub fn pass_text(&mut self, alloc: Global, text: &[u8]) -> Result<usize, AllocError>
        ensures place { OnOk result (self.new ≡ after_text self.old text.now) }
        ensures count { IfOk result (λ count. count ≡ length (parts_at 10 text.now)) }
    {
        let lines = parts_at(alloc, text, b'\n')?;
        for line in &lines {
            self.pass_line(alloc, line)?;
        }
        Ok(lines.len())
    }
}
