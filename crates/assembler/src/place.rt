//! The first pass: the place of each line, and the labels.

ghost use Rattle.std.specs.Prelude.{◌≡◌, ◌≢◌, ◌≤◌, ◌-◌, ℕ, IfOk, IfErr, OnOk, true, false, ◌<◌, Ok, Err, Some, fold};
ghost use Rattle.std.specs.Prelude.{slice_get, map};
ghost use Rattle.std.specs.Option.{option_map};
ghost use Rattle.asm_lines.specs.Statements.{stmt_of, said_of};
ghost use Rattle.assembler.specs.declared.fault.AsmFault.TheVariants.{Memory, LabelTwice};
ghost use Rattle.assembler.specs.Meaning.{Labels, Place, start, address, count_of, after_statement};
ghost use Rattle.assembler.specs.Meaning.{labelled, is_taken, place_statement, place_said, place_line, placed_at};
ghost use Rattle.assembler.specs.Meaning.{after_said, after, line_piece, pieces_from};
ghost use Rattle.assembler.specs.Passes.{name_of, nows, place_of, piece_at};

use crate::cursor::{Cursor, LineAt};
use crate::fault::{AsmError, AsmFault};
use crate::sections::{misplacement, room_of, size_of};
use crate::symbol::Symbol;
use asm_lines::{Line, LineError, Section, Statement, read_line};
use flat_machine::{CODE_START, LOCAL_START, SHARED_START};
use std::alloc::Global;
use std::collections::BTreeMap;

impl<'a> Cursor<'a> {
    /// The place of a text's first line.
    pub fn new(alloc: Global) -> Cursor<'a>
        ensures { place_of result ≡ start }
    {
        Cursor {
            section: Section::Code,
            code: 0,
            local: 0,
            shared: 0,
            labels: BTreeMap::new(alloc),
        }
    }

    /// How many bytes the section has so far.
    fn count(&self) -> u32
        ensures { result ≡ count_of self.now.section (place_of self.now) }
    {
        match self.section {
            Section::Code => self.code,
            Section::Local => self.local,
            Section::Shared => self.shared,
        }
    }

    /// The address of the section's next byte.
    fn address(&self) -> u32
        ensures { result ≡ address (place_of self.now) }
    {
        match self.section {
            Section::Code => CODE_START + self.code,
            Section::Local => LOCAL_START + self.local,
            Section::Shared => SHARED_START + self.shared,
        }
    }

    /// Advances past a statement, if it is allowed at this place and there is room for it.
    fn place_statement(&mut self, statement: &Statement<'_>) -> Result<(), AsmFault>
        ensures ok { OnOk result (place_statement (place_of self.old) (Some (stmt_of statement.now))
            ≡ Ok (placed_at (place_of self.old) (Some (stmt_of statement.now)))) }
        ensures after { OnOk result (place_of self.new ≡ after_statement (place_of self.old) (stmt_of statement.now)) }
        ensures err { IfErr result (λ f. place_statement (place_of self.old) (Some (stmt_of statement.now)) ≡ Err f) }
    {
        let section = self.section;
        if let Some(fault) = misplacement(section, u64::from(self.address()), statement) {
            return Err(fault);
        }
        let count = self.count();
        let size = size_of(statement);
        if size > u64::from(room_of(section) - count) {
            return Err(AsmFault::SectionFull);
        }
        match section {
            Section::Code => self.code = count + size as u32,
            Section::Local => self.local = count + size as u32,
            Section::Shared => self.shared = count + size as u32,
        }
        if let Statement::Section(next) = statement {
            self.section = *next;
        }
        Ok(())
    }

    fn add_label(&mut self, name: Option<&'a [u8]>) -> Result<(), AsmFault>
        ensures ok { OnOk result (is_taken (place_of self.old) (name_of name.entry) ≡ false) }
        ensures after { OnOk result (place_of self.new ≡ labelled (name_of name.entry) (place_of self.old)) }
        ensures err { IfErr result (λ f. f ≢ Memory → f ≡ LabelTwice) }
        ensures taken { IfErr result (λ f. f ≢ Memory → is_taken (place_of self.old) (name_of name.entry) ≡ true) }
    {
        let Some(name) = name else {
            return Ok(());
        };
        if self.labels.contains_key(&name) {
            return Err(AsmFault::LabelTwice);
        }
        let symbol = Symbol {
            section: self.section,
            address: self.address(),
        };
        self.labels.insert(name, symbol)?;
        Ok(())
    }

    /// Advances past a line that is read: its label and its statement.
    #[tactic(auto, unfolding(crate::specs::Meaning::place_said, crate::specs::Meaning::after_said))]
    fn place_said(&mut self, said: &Line<'a>) -> Result<(), AsmFault>
        ensures ok { OnOk result (place_said (place_of self.old) (said_of said.now)
            ≡ Ok (placed_at (place_of self.old) (option_map stmt_of said.now.statement))) }
        ensures after { OnOk result (place_of self.new ≡ after_said (place_of self.old) (said_of said.now)) }
        ensures err { IfErr result (λ f. f ≢ Memory → place_said (place_of self.old) (said_of said.now) ≡ Err f) }
    {
        self.add_label(said.label)?;
        match &said.statement {
            None => Ok(()),
            Some(statement) => self.place_statement(statement),
        }
    }

    /// Reads the next line, advances past it, and returns it with its place.
    #[tactic(auto, unfolding(crate::specs::Passes::statement_piece, crate::specs::Passes::piece_at))]
    pub fn place_line(&mut self, alloc: Global, line: &'a [u8]) -> Result<LineAt<'a>, AsmFault>
        ensures ok { IfOk result (λ p. (ls : Labels) → line_piece ls (place_of self.old) line.now ≡ piece_at ls p) }
        ensures after { OnOk result (place_of self.new ≡ after (place_of self.old) line.now) }
        ensures err { IfErr result (λ f. f ≢ Memory → place_line (place_of self.old) line.now ≡ Err f) }
    {
        let section = self.section;
        let address = self.address();
        match read_line(alloc, line) {
            Ok(said) => self.place_said(&said)?,
            Err(LineError::Memory) => return Err(AsmFault::Memory),
            Err(LineError::Fault(fault)) => return Err(AsmFault::of(fault)),
        }
        Ok(LineAt {
            section,
            address,
            line,
        })
    }
}

/// Returns each line with its place, and the place after the last line.
pub fn place_lines<'a>(
    alloc: Global,
    lines: &[&'a [u8]],
) -> Result<(Vec<LineAt<'a>>, Cursor<'a>), AsmError>
    ensures ok { IfOk result (λ r. (ls : Labels) →
        pieces_from ls start (nows lines.now) ≡ map (piece_at ls) r.0.items) }
    ensures after { IfOk result (λ r. place_of r.1 ≡ fold after start (nows lines.now)) }
    ensures line { IfErr result (λ e. e.fault ≢ Memory → 0 < e.line) }
    ensures err { IfErr result (λ e. e.fault ≢ Memory → (ls : Labels) →
        slice_get (pieces_from ls start (nows lines.now)) (e.line - 1) ≡ Some (Err e.fault)) }
{
    let mut cursor = Cursor::new(alloc);
    let mut placed = Vec::new(alloc);
    for (at, line) in lines.iter().enumerate() {
        match cursor.place_line(alloc, line) {
            Ok(next) => {
                if placed.push(next).is_err() {
                    return Err(AsmError {
                        line: at + 1,
                        fault: AsmFault::Memory,
                    });
                }
            }
            Err(fault) => return Err(AsmError {
                line: at + 1,
                fault,
            }),
        }
    }
    Ok((placed, cursor))
}
