//! Reading a trace.

ghost use Rattle.std.specs.Prelude.{◌≡◌, ℕ, ◌≤◌, ◌<◌, ◌↔◌, ◌/◌, ◌%◌, true, false, List, [], length, take, OnOk, IfOk};
ghost use Rattle.std.specs.Prelude.{IfErr, IsErrOf};
ghost use Rattle.std.specs.Io.KnownBytes.{Consumes};
ghost use Rattle.link.specs.Transfer.{ConsumesAll};
ghost use Rattle.trace_file.specs.Traces.{header_bytes, trace_bytes, IsHeader, IsTrace};
ghost use Rattle.trace_file.specs.Faults.{IsRefused, header_size};
ghost use Rattle.trace_file.specs.Reading.{is_link_fault, Adds, AddsRead, IsNotAdded, IsStopped, IsNoEnd};

use crate::error::TraceError;
use crate::fields::{Fields, RECORD_BYTES};
use crate::header::{Header, MAX_HEADER_BYTES, header_size};
use crate::trace::Trace;
use crate::write::{PIECE_BYTES, RECORDS_IN_PIECE};
use link::{LinkRead, fill};
use std::alloc::Global;
use steps::Step;

/// The number of bytes up to and including the number of the format.
const FORMAT_BYTES: usize = 5;

/// Reads a trace, up to the end of the reader's bytes.
///
/// Takes memory for the records that were read, not for the number in the header. After the last record, asks for one
/// more byte to see that the trace ends.
///
/// # Errors
///
/// The first fault in the order of the bytes, of [`TraceError::Truncated`], [`TraceError::Header`],
/// [`TraceError::Record`] and [`TraceError::Trailing`]: all bytes before it are right. If a record is wrong, at most
/// 4,092 bytes were taken from its place on. [`TraceError::Link`] exactly if the link failed in this call, and
/// [`TraceError::Memory`] if there was no memory for the steps. With these two, the reader has given some of its first
/// bytes, no more than a trace has.
pub fn read_trace<R: LinkRead>(alloc: Global, reader: &mut R) -> Result<Trace, TraceError>
    requires { R.has_failed reader.old ≡ false }
    ensures trace { IfOk result IsTrace }
    ensures ok { IfOk result (λ t. ConsumesAll (R.remaining reader.old) (R.remaining reader.new) (trace_bytes t)) }
    ensures refused { IfErr result (IsRefused (R.remaining reader.old) (R.remaining reader.new)) }
    ensures link { IsErrOf result TraceError.Link ↔ (R.has_failed reader.new ≡ true) }
{
    let header = read_header(reader)?;
    let steps = read_records(alloc, reader, &header)?;
    read_end(reader)?;
    Ok(Trace::new(&header, steps))
}

/// Reads the header.
fn read_header<R: LinkRead>(reader: &mut R) -> Result<Header, TraceError>
    requires { R.has_failed reader.old ≡ false }
    ensures failed { R.has_failed reader.new ≡ is_link_fault result }
    ensures ok { IfOk result (λ header. IsHeader header
        × Consumes (R.remaining reader.old) (R.remaining reader.new) (header_bytes header)) }
    ensures refused { IfErr result (IsRefused (R.remaining reader.old) (R.remaining reader.new)) }
{
    let mut bytes = [0; MAX_HEADER_BYTES];
    let size = fill_header(reader, &mut bytes)?;
    let Some(header) = Header::of(&bytes[..size]) else {
        return Err(TraceError::Header);
    };
    Ok(header)
}

/// Reads a header of the size that the number of its format gives, and returns its number of bytes.
fn fill_header<R: LinkRead>(
    reader: &mut R,
    bytes: &mut [u8; MAX_HEADER_BYTES],
) -> Result<usize, TraceError>
    requires { R.has_failed reader.old ≡ false }
    ensures failed { R.has_failed reader.new ≡ is_link_fault result }
    ensures ok { IfOk result (λ size. (size ≤ 16) × (size ≡ header_size (take size bytes.new))
        × Consumes (R.remaining reader.old) (R.remaining reader.new) (take size bytes.new)) }
    ensures refused { IfErr result (IsRefused (R.remaining reader.old) (R.remaining reader.new)) }
{
    if fill(reader, &mut bytes[..FORMAT_BYTES])? < FORMAT_BYTES {
        return Err(TraceError::Truncated);
    }
    let size = header_size(bytes[FORMAT_BYTES - 1]);
    if fill(reader, &mut bytes[FORMAT_BYTES..size])? < size - FORMAT_BYTES {
        return Err(TraceError::Truncated);
    }
    Ok(size)
}

/// Reads as many records as the header says.
fn read_records<R: LinkRead>(
    alloc: Global,
    reader: &mut R,
    header: &Header,
) -> Result<Vec<Step>, TraceError>
    requires works { R.has_failed reader.old ≡ false }
    requires header { IsHeader header.now }
    ensures failed { R.has_failed reader.new ≡ is_link_fault result }
    ensures ok { IfOk result (λ steps. AddsRead header.now.k header.now.count [] steps.items (R.remaining reader.old)
        (R.remaining reader.new)) }
    ensures refused { IfErr result (IsStopped 4092 header.now.k header.now.count (R.remaining reader.old)
        (R.remaining reader.new)) }
{
    let mut steps = Vec::new(alloc);
    let mut piece = [0; PIECE_BYTES];
    let mut left = header.count as usize;
    while 0 < left {
        let count = left.min(RECORDS_IN_PIECE);
        let room = &mut piece[..RECORD_BYTES * count];
        read_piece(reader, header.k, room, &mut steps)?;
        left -= count;
    }
    Ok(steps)
}

/// Reads as many records as there is room for.
fn read_piece<R: LinkRead>(
    reader: &mut R,
    k: u8,
    room: &mut [u8],
    steps: &mut Vec<Step>,
) -> Result<(), TraceError>
    requires works { R.has_failed reader.old ≡ false }
    requires stages { k ≤ 6 }
    requires piece { length room.old ≤ 4092 }
    requires whole { length room.old % 12 ≡ 0 }
    ensures failed { R.has_failed reader.new ≡ is_link_fault result }
    ensures ok { OnOk result (AddsRead k (length room.old / 12) steps.old.items steps.new.items
        (R.remaining reader.old) (R.remaining reader.new)) }
    ensures refused { IfErr result (IsStopped 4092 k (length room.old / 12) (R.remaining reader.old)
        (R.remaining reader.new)) }
{
    let filled = fill(reader, room)?;
    add_steps(&room[..filled], k, steps)?;
    if filled < room.len() {
        return Err(TraceError::Truncated);
    }
    Ok(())
}

/// Appends the steps whose records are in a piece. A record that is cut short at its end is left out.
fn add_steps(piece: &[u8], k: u8, steps: &mut Vec<Step>) -> Result<(), TraceError>
    requires { k ≤ 6 }
    ensures ok { OnOk result ((rest : List ℕ) × (length rest < 12)
        × Adds k steps.old.items steps.new.items piece.now rest) }
    ensures refused { IfErr result (IsNotAdded k piece.now) }
{
    let mut rest = piece;
    while RECORD_BYTES <= rest.len() {
        let (record, behind) = rest.split_at(RECORD_BYTES);
        let Some(step) = Fields::in_bytes(record).step(k) else {
            return Err(TraceError::Record);
        };
        steps.push(step)?;
        rest = behind;
    }
    Ok(())
}

/// Reads the end: there is no byte more.
fn read_end<R: LinkRead>(reader: &mut R) -> Result<(), TraceError>
    requires { R.has_failed reader.old ≡ false }
    ensures failed { R.has_failed reader.new ≡ is_link_fault result }
    ensures ok { OnOk result (ConsumesAll (R.remaining reader.old) (R.remaining reader.new) []) }
    ensures refused { IfErr result (IsNoEnd (R.remaining reader.old) (R.remaining reader.new)) }
{
    let mut byte = [0; 1];
    match fill(reader, &mut byte)? {
        0 => Ok(()),
        _ => Err(TraceError::Trailing),
    }
}
