//! Writing a trace.

ghost use Rattle.std.specs.Prelude.{◌≡◌, ◌≤◌, ◌<◌, ◌+◌, ◌++◌, false, ◌↔◌, IsTrue, OnOk, OnErr, IsOkUnless, is_err};
ghost use Rattle.std.specs.Prelude.{length};
ghost use Rattle.std.specs.Io.KnownBytes.{Appends};
ghost use Rattle.arrayvec.specs.ArrayVec.{array_vec_len};
ghost use Rattle.link.specs.Transfer.{AppendsPart};
ghost use Rattle.trace_file.specs.Traces.{records_bytes, trace_of, trace_bytes, IsTrace};

use crate::error::TraceError;
use crate::fields::{Fields, RECORD_BYTES, has_record};
use crate::header::Header;
use arrayvec::ArrayVec;
use flat_machine::Config;
use link::{Failed, LinkWrite, laws, write_whole};
use steps::{MAX_STEPS, Step};

/// The number of records written at once.
pub const RECORDS_IN_PIECE: usize = 341;

/// The number of bytes written or read at once.
pub const PIECE_BYTES: usize = 4092;

/// The bytes written at once.
type Piece = ArrayVec<u8, PIECE_BYTES>;

const _: () = prove!(PIECE_BYTES == RECORD_BYTES * RECORDS_IN_PIECE);

/// Writes the trace of these steps on a machine of this size. The size must be in range, each step must have a record,
/// and there may be at most 4,194,304 steps.
///
/// # Errors
///
/// [`TraceError::Link`] exactly if the link failed in this call. Then some of the trace's first bytes were written, but
/// not all.
pub fn write_trace<W: LinkWrite>(
    writer: &mut W,
    config: &Config,
    steps: &[Step],
) -> Result<(), TraceError>
    requires works { W.has_failed writer.old ≡ false }
    requires trace { IsTrace (trace_of config.now steps.now) }
    ensures failed { W.has_failed writer.new ≡ is_err result }
    ensures link { IsOkUnless result TraceError.Link }
    ensures ok { OnOk result (Appends (W.contents writer.old) (W.contents writer.new)
        (trace_bytes (trace_of config.now steps.now))) }
    ensures err { OnErr result (AppendsPart (W.contents writer.old) (W.contents writer.new)
        (trace_bytes (trace_of config.now steps.now))) }
{
    // A law about what is written in parts, for the proof alone.
    laws::parts_make_a_beginning();
    write_whole(writer, Header::new(config, steps).bytes().as_slice())?;
    write_records(writer, steps)?;
    Ok(())
}

/// Whether the steps have a trace on a machine of this size: `k`, `c`, `b` and `r` are in range, each step has a
/// record, and there are at most 4,194,304 steps.
pub fn is_trace(config: &Config, steps: &[Step]) -> bool
    ensures { IsTrue result ↔ IsTrace (trace_of config.now steps.now) }
{
    if MAX_STEPS < steps.len() {
        return false;
    }
    if !Header::new(config, steps).is_in_range() {
        return false;
    }
    for step in steps {
        if !has_record(step, config.k) {
            return false;
        }
    }
    true
}

/// Writes the records of the steps, one piece at a time.
fn write_records<W: LinkWrite>(writer: &mut W, steps: &[Step]) -> Result<(), Failed>
    requires { W.has_failed writer.old ≡ false }
    ensures failed { W.has_failed writer.new ≡ is_err result }
    ensures ok { OnOk result (Appends (W.contents writer.old) (W.contents writer.new) (records_bytes steps.now)) }
    ensures err { OnErr result (AppendsPart (W.contents writer.old) (W.contents writer.new) (records_bytes steps.now)) }
{
    // The same law.
    laws::parts_make_a_beginning();
    let mut rest = steps;
    while !rest.is_empty() {
        let (piece, behind) = rest.split_at(rest.len().min(RECORDS_IN_PIECE));
        write_whole(writer, records_of(piece).as_slice())?;
        rest = behind;
    }
    Ok(())
}

/// The records of at most as many steps as a piece holds.
fn records_of(steps: &[Step]) -> Piece
    requires { length steps.now ≤ 341 }
    ensures { result.items ≡ records_bytes steps.now }
{
    let mut records = Piece::new();
    for step in steps {
        put(&mut records, &Fields::of(step).bytes());
    }
    records
}

/// Appends a record.
fn put(records: &mut Piece, bytes: &[u8; RECORD_BYTES])
    requires { array_vec_len records.old + 12 ≤ 4092 }
    ensures items { records.new.items ≡ records.old.items ++ bytes.now }
    ensures len { array_vec_len records.new ≡ array_vec_len records.old + 12 }
{
    records.try_extend_from_slice(bytes).unwrap();
}
