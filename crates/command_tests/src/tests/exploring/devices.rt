//! Lines of sizes that cannot be printed or reported, and tests that run with each of their allocations refused in
//! turn. The checks of the program make each read and write of the command fail in turn.

ghost use Rattle.std.specs.Prelude.{◌≡◌, false};

use super::{config_of, each};
use explore_command::{NoProgress, explore_command, explore_every_size};
use link::{LinkWrite, Meter};
use std::alloc::Global;
use std::io::{Read, Write};
use std::test::Fail;
use test_support::{Deaf, EBREAK, Sink, assert_same};

/// The one result of an image of `ebreak` on one processor.
const STOPPED: &[u8] = b"result 1
processor 0 pc 00010000 fault 8 console -
1 result, 1 state
every schedule ends
";

/// Explores an image on one processor, without a witness, and returns the exit status.
fn explored<R: Read + Drop, W: LinkWrite, E: Write>(
    alloc: Global,
    file: R,
    out: &mut W,
    err: &mut E,
) -> u8
    requires { W.has_failed out.old ≡ false }
{
    let mut trace: Option<Meter<Vec<u8>>> = None;
    explore_command(
        alloc,
        &mut Meter::new(file),
        config_of(0),
        each(10),
        &mut trace,
        &mut NoProgress,
        out,
        err,
    )
}

/// The lines of `ebreak` on machines of every size.
const EVERY_STOPPED: &[u8] = b"k 0: 1 processor, 1 result, 1 state, every schedule ends, fault 8
k 1: 2 processors, 1 result, 1 state, every schedule ends, fault 8
k 2: 4 processors, 1 result, 1 state, every schedule ends, fault 8
k 3: 8 processors, 1 result, 1 state, every schedule ends, fault 8
k 4: 16 processors, 1 result, 1 state, every schedule ends, fault 8
k 5: 32 processors, 1 result, 1 state, every schedule ends, fault 8
k 6: 64 processors, 1 result, 1 state, every schedule ends, fault 8
";

/// The same if one state is too many.
const NONE_EXPLORED: &[u8] = b"k 0: 1 processor, not explored: states
k 1: 2 processors, not explored: states
k 2: 4 processors, not explored: states
k 3: 8 processors, not explored: states
k 4: 16 processors, not explored: states
k 5: 32 processors, not explored: states
k 6: 64 processors, not explored: states
";

/// Explores an image on machines of every size, and returns the exit status.
fn explored_sizes<R: Read + Drop, W: LinkWrite, E: Write>(
    alloc: Global,
    file: R,
    limit: u32,
    out: &mut W,
    err: &mut E,
) -> u8
    requires { W.has_failed out.old ≡ false }
{
    explore_every_size(
        alloc,
        &mut Meter::new(file),
        config_of(0),
        each(limit),
        &mut NoProgress,
        out,
        err,
    )
}

/// The fault of each size is reported, up to the size whose line cannot be printed, and then the failure to print.
#[test]
fn refused_sizes_that_cannot_be_printed(rt: HostRuntime) {
    let alloc = rt.alloc();
    for (fails_at, reported, status) in [
        (20, b"ultra: states\nultra: link\n".as_slice(), 3),
        (
            60,
            b"ultra: states\nultra: states\nultra: link\n".as_slice(),
            3,
        ),
    ] {
        let mut out = Meter::new(Sink::new(Vec::new(alloc), fails_at));
        let mut err = Sink::new(Vec::new(alloc), 0);
        let found = explored_sizes(alloc, EBREAK.as_slice(), 1, &mut out, &mut err);
        assert_same!(rt; Some(out.device.bytes.as_slice()), NONE_EXPLORED.get(..fails_at - 1));
        assert_same!(rt; err.bytes.as_slice(), reported);
        assert_same!(rt; found, status);
    }
}

/// If standard error fails, the lines and the exit status are the same.
#[test]
fn sizes_that_cannot_be_told(rt: HostRuntime) {
    let alloc = rt.alloc();
    let mut out = Meter::new(Sink::new(Vec::new(alloc), 0));
    let status = explored_sizes(alloc, EBREAK.as_slice(), 1, &mut out, &mut Deaf);
    assert_same!(rt; out.device.bytes.as_slice(), NONE_EXPLORED);
    assert_same!(rt; status, 4);
}

#[test]
fn short_of_memory(rt: HostRuntime) -> Result<(), Fail> {
    let alloc = rt.alloc();
    let mut out = Meter::new(Sink::new(Vec::with_capacity(alloc, 128)?, 0));
    let mut err = Sink::new(Vec::with_capacity(alloc, 128)?, 0);
    let file = EBREAK.as_slice();
    let status = explored(alloc, file, &mut out, &mut err);
    if status == 1 {
        assert_same!(rt; out.device.bytes.as_slice(), STOPPED);
        assert_same!(rt; err.bytes.len(), 0);
    } else {
        assert_same!(rt; status, 4);
        assert_same!(rt; out.device.bytes.len(), 0);
        assert_same!(rt; err.bytes.as_slice(), b"ultra: memory\n".as_slice());
    }
    Ok(())
}

/// A size that runs out of memory is not explored, and its line says so. If there is no memory for a line, only the
/// lines before it are printed.
#[test]
fn every_size_is_short_of_memory(rt: HostRuntime) -> Result<(), Fail> {
    let alloc = rt.alloc();
    let mut out = Meter::new(Sink::new(Vec::with_capacity(alloc, 512)?, 0));
    let mut err = Sink::new(Vec::with_capacity(alloc, 64)?, 0);
    let status = explored_sizes(alloc, EBREAK.as_slice(), 10, &mut out, &mut err);
    let lines = out.device.bytes.as_slice();
    if status == 1 {
        assert_same!(rt; lines, EVERY_STOPPED);
        assert_same!(rt; err.bytes.len(), 0);
    } else {
        assert_same!(rt; status, 4);
        assert_same!(rt; err.bytes.as_slice(), b"ultra: memory\n".as_slice());
        let is_cut = EVERY_STOPPED.starts_with(lines) && lines != EVERY_STOPPED;
        assert!(rt; is_cut || lacks_a_size(str::from_utf8(lines)?));
    }
    Ok(())
}

/// Returns whether these are the lines of all sizes, one of which ran out of memory.
fn lacks_a_size(lines: &str) -> bool {
    let mut lacking = 0u8;
    let mut wanted = str::from_utf8(EVERY_STOPPED).unwrap_or("").lines();
    for line in lines.lines() {
        match wanted.next() {
            Some(all) if line == all => {}
            Some(all) if is_lacking(line, all) => lacking = lacking.saturating_add(1),
            _ => return false,
        }
    }
    wanted.next().is_none() && lacking == 1
}

/// Returns whether the line says that the size of the other line ran out of memory.
fn is_lacking(line: &str, all: &str) -> bool {
    match (line.split_once(", "), all.split_once(", ")) {
        (Some((size, reported)), Some((same, _))) => size == same
            && reported == "not explored: memory",
        _ => false,
    }
}
