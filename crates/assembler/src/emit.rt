//! The second pass: the bytes of each line.

ghost use Rattle.std.specs.Prelude.{◌≡◌, ◌≢◌, ◌++◌, ◌<◌, ◌-◌, pos, Err, Some, IsOk, IfOk, IfErr, OnOk, IsOkAnd, All};
ghost use Rattle.std.specs.Prelude.{map, slice_get};
ghost use Rattle.asm_lines.specs.declared.statement.Section.TheVariants.{Code, Local, Shared};
ghost use Rattle.asm_lines.specs.Statements.{val_of, stmt_of};
ghost use Rattle.assembler.specs.declared.fault.AsmFault.TheVariants.{Memory};
ghost use Rattle.assembler.specs.Meaning.{words_bytes, statement_bytes, bytes_in, section_bytes};
ghost use Rattle.assembler.specs.Passes.{label_values, statement_piece, piece_at};

use crate::cursor::LineAt;
use crate::fault::{AsmError, AsmFault};
use crate::symbol::Symbol;
use crate::values::{Part, insn_at, number_of};
use asm_lines::{LineError, Section, Statement, Value, low_bits, read_line};
use decode::encode;
use elf_image::{Bytes, Layout};
use std::alloc::Global;
use std::collections::BTreeMap;

/// Appends the bytes of words.
fn emit_words<'a>(
    labels: &BTreeMap<&'a [u8], Symbol>,
    values: &[Value<'a>],
    out: &mut Bytes,
) -> Result<(), AsmFault>
    ensures ok { OnOk result (IsOkAnd (words_bytes (label_values labels.now) (map val_of values.now))
        (λ bs. out.new ≡ out.old ++ bs)) }
    ensures err { IfErr result (λ f. f ≢ Memory →
        words_bytes (label_values labels.now) (map val_of values.now) ≡ Err f) }
{
    for value in values {
        let number = number_of(labels, Part::Whole, value)?;
        let word = low_bits(0x1_0000_0000, number) as u32;
        out.extend_from_slice(&word.to_le_bytes())?;
    }
    Ok(())
}

/// Appends the bytes of a statement at its address.
fn emit_statement<'a>(
    labels: &BTreeMap<&'a [u8], Symbol>,
    at: u32,
    statement: &Statement<'a>,
    out: &mut Bytes,
) -> Result<(), AsmFault>
    ensures ok { OnOk result (IsOkAnd (statement_bytes (label_values labels.now) at (stmt_of statement.now))
        (λ bs. out.new ≡ out.old ++ bs)) }
    ensures err { IfErr result (λ f. f ≢ Memory →
        statement_bytes (label_values labels.now) at (stmt_of statement.now) ≡ Err f) }
{
    match statement {
        Statement::Section(_) => {}
        Statement::Words(values) => emit_words(labels, values, out)?,
        Statement::Bytes(bytes) => out.extend_from_slice(bytes)?,
        Statement::Zeros(count) => out.extend_by(0, *count)?,
        Statement::Instruction(instruction) => {
            let insn = insn_at(labels, at, instruction)?;
            out.extend_from_slice(&encode(&insn).to_le_bytes())?;
        }
    }
    Ok(())
}

/// Appends the bytes of a line's statement to the line's section.
#[tactic(auto, unfolding(crate::specs::Meaning::piece_of, crate::specs::Passes::statement_piece))]
fn emit_in_section<'a>(
    labels: &BTreeMap<&'a [u8], Symbol>,
    place: &LineAt<'a>,
    statement: &Statement<'a>,
    layout: &mut Layout,
) -> Result<(), AsmFault>
    ensures ok { OnOk result (IsOk (statement_piece (label_values labels.now) place.now
        (Some (stmt_of statement.now)))) }
    ensures code { OnOk result (layout.new.code ≡ layout.old.code
        ++ bytes_in Code (statement_piece (label_values labels.now) place.now (Some (stmt_of statement.now)))) }
    ensures local { OnOk result (layout.new.local ≡ layout.old.local
        ++ bytes_in Local (statement_piece (label_values labels.now) place.now (Some (stmt_of statement.now)))) }
    ensures shared { OnOk result (layout.new.shared ≡ layout.old.shared
        ++ bytes_in Shared (statement_piece (label_values labels.now) place.now (Some (stmt_of statement.now)))) }
    ensures entry { OnOk result (layout.new.entry ≡ layout.old.entry) }
    ensures err { IfErr result (λ f. f ≢ Memory →
        statement_piece (label_values labels.now) place.now (Some (stmt_of statement.now)) ≡ Err f) }
{
    match place.section {
        Section::Code => emit_statement(labels, place.address, statement, &mut layout.code),
        Section::Local => emit_statement(labels, place.address, statement, &mut layout.local),
        Section::Shared => emit_statement(labels, place.address, statement, &mut layout.shared),
    }
}

/// Appends the bytes of a line to its section.
#[tactic(auto, unfolding(crate::specs::Meaning::piece_of, crate::specs::Passes::statement_piece, crate::specs::Passes::piece_at))]
fn emit_line<'a>(
    alloc: Global,
    labels: &BTreeMap<&'a [u8], Symbol>,
    place: &LineAt<'a>,
    layout: &mut Layout,
) -> Result<(), AsmFault>
    ensures ok { OnOk result (IsOk (piece_at (label_values labels.now) place.now)) }
    ensures code { OnOk result (layout.new.code ≡ layout.old.code
        ++ bytes_in Code (piece_at (label_values labels.now) place.now)) }
    ensures local { OnOk result (layout.new.local ≡ layout.old.local
        ++ bytes_in Local (piece_at (label_values labels.now) place.now)) }
    ensures shared { OnOk result (layout.new.shared ≡ layout.old.shared
        ++ bytes_in Shared (piece_at (label_values labels.now) place.now)) }
    ensures entry { OnOk result (layout.new.entry ≡ layout.old.entry) }
    ensures err { IfErr result (λ f. f ≢ Memory → piece_at (label_values labels.now) place.now ≡ Err f) }
{
    match read_line(alloc, place.line) {
        Ok(said) => match &said.statement {
            None => Ok(()),
            Some(statement) => emit_in_section(labels, place, statement, layout),
        },
        Err(LineError::Memory) => Err(AsmFault::Memory),
        Err(LineError::Fault(fault)) => Err(AsmFault::of(fault)),
    }
}

/// Returns the layout with the bytes of all lines and this entry.
pub fn emit_lines<'a>(
    alloc: Global,
    labels: &BTreeMap<&'a [u8], Symbol>,
    placed: &[LineAt<'a>],
    entry: u32,
) -> Result<Layout, AsmError>
    ensures faultless { IfOk result (λ _. All IsOk (map (piece_at (label_values labels.now)) placed.now)) }
    ensures code { IfOk result (λ layout. layout.code
        ≡ section_bytes Code (map (piece_at (label_values labels.now)) placed.now)) }
    ensures local { IfOk result (λ layout. layout.local
        ≡ section_bytes Local (map (piece_at (label_values labels.now)) placed.now)) }
    ensures shared { IfOk result (λ layout. layout.shared
        ≡ section_bytes Shared (map (piece_at (label_values labels.now)) placed.now)) }
    ensures entry { IfOk result (λ layout. layout.entry ≡ entry) }
    ensures err { IfErr result (λ e. e.fault ≢ Memory → (0 < e.line)
        × (slice_get (map (piece_at (label_values labels.now)) placed.now) (e.line - 1) ≡ Some (Err e.fault))) }
{
    let mut layout = Layout {
        entry,
        code: Bytes::new(alloc),
        local: Bytes::new(alloc),
        shared: Bytes::new(alloc),
    };
    for (at, line) in placed.iter().enumerate() {
        if let Err(fault) = emit_line(alloc, labels, line, &mut layout) {
            return Err(AsmError {
                line: at + 1,
                fault,
            });
        }
    }
    Ok(layout)
}
