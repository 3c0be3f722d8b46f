//! The place of the next line of a text, after any lines.

ghost use Rattle.std.specs.Prelude.{◌≡◌, ◌≤◌, ◌+◌, ◌-◌, ◌^◌, IfOk, IfErr, OnOk, Ok, Err, Some, None};
ghost use Rattle.asm_lines.specs.Statements.{stmt_of, said_of};
ghost use Rattle.assembler.specs.Meaning.{start, address, count_of, place_statement, labelled, after_statement};
ghost use Rattle.assembler.specs.Meaning.{after_said};
ghost use Rattle.assembler.specs.Passes.{name_of};
ghost use Rattle.line_faults.specs.Faults.{said_fault};
ghost use Rattle.line_faults.specs.Places.{first_lines, label_values, lines_after, place_of};

use crate::cursor::Cursor;
use crate::labels::Label;
use crate::values::statement_fault;
use asm_lines::{Line, Section, Statement};
use assembler::{AsmFault, base_of, misplacement, room_of, size_of};
use std::alloc::{AllocError, Global};
use std::collections::BTreeMap;

/// More bytes than a text that fits in memory can give a section.
const MOST: u64 = 0x4000_0000_0000_0000;

/// The number of bytes with this many more.
fn more(count: u64, size: u64) -> Result<u64, AllocError>
    ensures sum { IfOk result (λ sum. sum ≡ count + size) }
    ensures small { IfOk result (λ sum. sum ≤ 2 ^ 62) }
{
    match count.checked_add(size) {
        Some(sum) if sum <= MOST => Ok(sum),
        _ => Err(AllocError),
    }
}

impl<'a> Cursor<'a> {
    /// The cursor at the beginning of a text.
    pub fn new(alloc: Global) -> Cursor<'a>
        ensures place { place_of result ≡ start }
        ensures lines { first_lines result ≡ λ _. None }
    {
        Cursor {
            section: Section::Code,
            code: 0,
            local: 0,
            shared: 0,
            labels: BTreeMap::new(alloc),
        }
    }

    /// The number of bytes in the section.
    pub fn count(&self) -> u64
        ensures exact { result ≡ count_of self.now.section (place_of self.now) }
        ensures small { result ≤ 2 ^ 62 }
    {
        match self.section {
            Section::Code => self.code,
            Section::Local => self.local,
            Section::Shared => self.shared,
        }
    }

    /// The address of the section's next byte.
    pub fn address(&self) -> u64
        ensures { result ≡ address (place_of self.now) }
    {
        u64::from(base_of(self.section)) + self.count()
    }

    /// The first line that has this label, counted from 1.
    pub fn line_of(&self, name: &'a [u8]) -> Option<usize>
        ensures { result ≡ first_lines self.now name.now }
    {
        self.labels.get(&name).map(|label| label.line)
    }

    /// The address of a statement, if it may be here.
    fn place_statement(&self, statement: &Statement<'_>) -> Result<u32, AsmFault>
        ensures ok { IfOk result (λ at. place_statement (place_of self.now) (Some (stmt_of statement.now))
            ≡ Ok (record { section = self.now.section; address = at; statement = Some (stmt_of statement.now) })) }
        ensures err { IfErr result (λ f. place_statement (place_of self.now) (Some (stmt_of statement.now)) ≡ Err f) }
    {
        if let Some(fault) = misplacement(self.section, self.address(), statement) {
            return Err(fault);
        }
        let count = self.count();
        let room = u64::from(room_of(self.section));
        if count > room || size_of(statement) > room - count {
            return Err(AsmFault::SectionFull);
        }
        Ok(base_of(self.section) + count as u32)
    }

    /// The fault of a line with this content, at the cursor.
    #[tactic(auto, unfolding(assembler::specs::Meaning::place_said, assembler::specs::Meaning::piece_of))]
    pub fn fault_of(&self, labels: &BTreeMap<&'a [u8], Label>, said: &Line<'a>) -> Option<AsmFault>
        ensures { result ≡ said_fault (label_values labels.now) (place_of self.now) (said_of said.now) }
    {
        if let Some(name) = said.label
            && self.labels.contains_key(&name)
        {
            return Some(AsmFault::LabelTwice);
        }
        let Some(statement) = &said.statement else {
            return None;
        };
        match self.place_statement(statement) {
            Ok(address) => statement_fault(labels, address, statement),
            Err(fault) => Some(fault),
        }
    }

    /// Adds the label of the line with this number.
    fn add_label(&mut self, name: Option<&'a [u8]>, number: usize) -> Result<(), AllocError>
        ensures place { OnOk result (place_of self.new ≡ labelled (name_of name.entry) (place_of self.old)) }
        ensures lines { OnOk result (first_lines self.new
            ≡ lines_after (first_lines self.old) (name_of name.entry) number) }
    {
        let Some(name) = name else {
            return Ok(());
        };
        let label = Label {
            section: self.section,
            address: self.address(),
            line: self.line_of(name).unwrap_or(number),
        };
        self.labels.insert(name, label)?;
        Ok(())
    }

    /// Moves past a statement.
    fn pass_statement(&mut self, statement: &Statement<'_>) -> Result<(), AllocError>
        ensures place { OnOk result (place_of self.new ≡ after_statement (place_of self.old) (stmt_of statement.now)) }
        ensures lines { OnOk result (first_lines self.new ≡ first_lines self.old) }
    {
        let size = size_of(statement);
        match self.section {
            Section::Code => self.code = more(self.code, size)?,
            Section::Local => self.local = more(self.local, size)?,
            Section::Shared => self.shared = more(self.shared, size)?,
        }
        if let Statement::Section(next) = statement {
            self.section = *next;
        }
        Ok(())
    }

    /// Moves past a line with this content and number.
    #[tactic(auto, unfolding(assembler::specs::Meaning::after_said))]
    pub fn pass(&mut self, said: &Line<'a>, number: usize) -> Result<(), AllocError>
        ensures place { OnOk result (place_of self.new ≡ after_said (place_of self.old) (said_of said.now)) }
        ensures lines { OnOk result (first_lines self.new
            ≡ lines_after (first_lines self.old) (said_of said.now).name number) }
    {
        self.add_label(said.label, number)?;
        match &said.statement {
            None => Ok(()),
            Some(statement) => self.pass_statement(statement),
        }
    }
}
