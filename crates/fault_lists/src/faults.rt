//! The list of faults.

ghost use Rattle.std.specs.Prelude.{◌≡◌, ◌+◌, ◌++◌, IfOk, IfSome, OnOk, fold, option_to_list};
ghost use Rattle.std.specs.Option.{option_map};
ghost use Rattle.assembler.specs.Meaning.{start, after, labels_of, line_piece, pieces_from};
ghost use Rattle.assembler.specs.Passes.{nows};
ghost use Rattle.fault_lists.specs.Faults.{AreTheFaults, AreFaultsOf, IsAt, IsNamed, error_of, error_at};
ghost use Rattle.fault_lists.specs.Faults.{first_line_with, label_of};
ghost use Rattle.line_faults.specs.Places.{first_lines, label_values, lines_after, place_of};
ghost use Rattle.line_faults.specs.word_faults.Views.{spot_span};

use crate::text_fault::TextFault;
use asm_lines::{LineError, parts_at, read_line};
use assembler::AsmFault;
use line_faults::{Around, Cursor, Label, Piece, Search, Spot, spot_of};
use std::alloc::{AllocError, Global};
use std::collections::BTreeMap;

/// All faults of a text, in the order of its lines: one for each line that has a fault. So the list is empty exactly if
/// the text has a meaning ([`none_where_there_is_a_meaning`](crate::none_where_there_is_a_meaning)).
///
/// # Errors
///
/// [`AllocError`] if there is no memory, or if a text has more than 2^62 bytes for a section.
pub fn text_faults<'a>(alloc: Global, text: &'a str) -> Result<Vec<TextFault<'a>>, AllocError>
    ensures { IfOk result (λ faults. AreTheFaults text.now faults.items) }
{
    let lines = parts_at(alloc, text.as_bytes(), b'\n')?;
    let labels = labels_of(alloc, &lines)?;
    faults_of(alloc, &labels, &lines)
}

/// The labels of lines.
fn labels_of<'a>(alloc: Global, lines: &[&'a [u8]]) -> Result<BTreeMap<&'a [u8], Label>, AllocError>
    ensures { IfOk result (λ labels. label_values labels ≡ labels_of (nows lines.now)) }
{
    let end = end_place(alloc, lines)?;
    Ok(end.labels)
}

/// The place after the last of these lines, with all their labels.
pub fn end_place<'a>(alloc: Global, lines: &[&'a [u8]]) -> Result<Cursor<'a>, AllocError>
    ensures place { IfOk result (λ end. place_of end ≡ fold after start (nows lines.now)) }
    ensures lines { IfOk result (λ end. first_lines end ≡ first_line_with (nows lines.now)) }
{
    let mut cursor = Cursor::new(alloc);
    for (at, line) in lines.iter().enumerate() {
        pass_line(alloc, &mut cursor, line, at + 1)?;
    }
    Ok(cursor)
}

/// Moves the cursor past the line with this number.
fn pass_line<'a>(
    alloc: Global,
    cursor: &mut Cursor<'a>,
    line: &'a [u8],
    number: usize,
) -> Result<(), AllocError>
    ensures place { OnOk result (place_of cursor.new ≡ after (place_of cursor.old) line.now) }
    ensures lines { OnOk result (first_lines cursor.new
        ≡ lines_after (first_lines cursor.old) (label_of line.now) number) }
{
    match read_line(alloc, line) {
        Ok(said) => cursor.pass(&said, number),
        Err(LineError::Memory) => Err(AllocError),
        Err(LineError::Fault(_)) => Ok(()),
    }
}

/// The faults of lines, in their order.
fn faults_of<'a>(
    alloc: Global,
    labels: &BTreeMap<&'a [u8], Label>,
    lines: &[&'a [u8]],
) -> Result<Vec<TextFault<'a>>, AllocError>
    ensures { IfOk result (λ faults. AreFaultsOf (label_values labels.now)
        (pieces_from (label_values labels.now) start (nows lines.now)) (nows lines.now)
        faults.items) }
{
    let mut cursor = Cursor::new(alloc);
    let mut search = Search::new();
    let mut faults = Vec::new(alloc);
    for (at, line) in lines.iter().enumerate() {
        let found = take_line(alloc, labels, &mut cursor, &mut search, line, at + 1)?;
        keep(&mut faults, found)?;
    }
    Ok(faults)
}

/// Appends a fault, if there is one.
fn keep<'a>(faults: &mut Vec<TextFault<'a>>, found: Option<TextFault<'a>>) -> Result<(), AllocError>
    ensures { OnOk result (faults.new.items ≡ faults.old.items ++ option_to_list found.entry) }
{
    if let Some(fault) = found {
        faults.push(fault)?;
    }
    Ok(())
}

/// The fault of the line with this number, which is the next one. Then moves the cursor past the line.
fn take_line<'a>(
    alloc: Global,
    labels: &BTreeMap<&'a [u8], Label>,
    cursor: &mut Cursor<'a>,
    search: &mut Search,
    line: &'a [u8],
    number: usize,
) -> Result<Option<TextFault<'a>>, AllocError>
    ensures fault { IfOk result (λ found. option_map error_of found
        ≡ error_at number (line_piece (label_values labels.now) (place_of cursor.old) line.now)) }
    ensures placed { IfOk result (λ found. IfSome found (λ t. (t.line ≡ number) × IsAt line.now t.column t.word.now
        × IsNamed (label_values labels.now) (first_lines cursor.old) (place_of cursor.old) line.now t)) }
    ensures place { OnOk result (place_of cursor.new ≡ after (place_of cursor.old) line.now) }
    ensures lines { OnOk result (first_lines cursor.new
        ≡ lines_after (first_lines cursor.old) (label_of line.now) number) }
{
    let (said, fault) = match read_line(alloc, line) {
        Ok(said) => {
            let fault = cursor.fault_of(labels, &said);
            (Some(said), fault)
        }
        Err(LineError::Memory) => return Err(AllocError),
        Err(LineError::Fault(fault)) => (None, Some(AsmFault::of(fault))),
    };
    let found = match fault {
        None => None,
        Some(fault) => {
            let around = Around { cursor, labels };
            Some(found_at(alloc, &around, search, line, number, fault)?)
        }
    };
    if let Some(said) = &said {
        cursor.pass(said, number)?;
    }
    Ok(found)
}

/// The fault of the line with this number, and the word at fault.
fn found_at<'a>(
    alloc: Global,
    around: &Around<'_, 'a>,
    search: &mut Search,
    line: &'a [u8],
    number: usize,
    fault: AsmFault,
) -> Result<TextFault<'a>, AllocError>
    ensures error { IfOk result (λ t. (t.line ≡ number) × (t.fault ≡ fault)) }
    ensures at { IfOk result (λ t. IsAt line.now t.column t.word.now) }
    ensures named { IfOk result (λ t. IsNamed (label_values around.now.labels.now)
        (first_lines around.now.cursor.now) (place_of around.now.cursor.now) line.now t) }
{
    let spot = spot_of(alloc, around, search, line, fault)?;
    Ok(fault_at(number, fault, &spot))
}

/// The fault of the line with this number at this spot.
fn fault_at<'a>(number: usize, fault: AsmFault, spot: &Spot<'a>) -> TextFault<'a>
    ensures line { result.line ≡ number }
    ensures fault { result.fault ≡ fault }
    ensures column { result.column ≡ (spot_span spot.now).start + 1 }
    ensures word { result.word.now ≡ (spot_span spot.now).bytes }
    ensures hint { result.hint ≡ spot.now.hint }
{
    TextFault {
        line: number,
        column: column_of(spot.piece),
        word: spot.piece.bytes,
        fault,
        hint: spot.hint,
    }
}

/// The column at which a piece begins in its line, counted in bytes from 1.
fn column_of(piece: Piece<'_>) -> usize
    ensures { result ≡ piece.entry.start + 1 }
{
    piece.start + 1
}
