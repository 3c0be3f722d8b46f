//! Texts of numbers, and a writer that is opened by its first write.

ghost use Rattle.std.specs.Prelude.{⊤, None};

use super::door::LoopbackPort;
use command_io::{Fault, OnFirstWrite, Open, print, push_bytes, push_status, push_word};
use flat_machine::{Fault as ProcessorFault, Status};
use link::{Link, Meter};
use std::alloc::Global;
use std::io::{self, ErrorKind, Write};
use std::test::Fail;
use test_support::{Sink, assert_same};

#[test]
fn digits(rt: HostRuntime) -> Result<(), Fail> {
    let alloc = rt.alloc();
    let mut text = String::new(alloc);
    push_word(alloc, &mut text, 0x00C0_FFEE)?;
    text.push(' ')?;
    push_bytes(alloc, &mut text, &[0, 0x7F, 0xA0])?;
    assert_same!(rt; text.as_str(), "00c0ffee 007fa0");
    Ok(())
}

#[test]
fn statuses(rt: HostRuntime) -> Result<(), Fail> {
    let alloc = rt.alloc();
    for (status, is) in [
        (Status::Running, "run"),
        (Status::Halted(0x0A), "halt 0a"),
        (Status::Faulted(ProcessorFault::Breakpoint), "fault 8"),
    ] {
        let mut text = String::new(alloc);
        push_status(alloc, &mut text, status)?;
        assert_same!(rt; text.as_str(), is);
    }
    Ok(())
}

#[test]
fn opens_at_the_first_write(rt: HostRuntime) {
    let mut writer = OnFirstWrite::new(LoopbackPort::new(rt.alloc(), false));
    let is_flushed = writer.flush().is_ok();
    assert_same!(rt; (is_flushed, writer.opener.openings, writer.device.is_none()), (true, 0, true));
    let is_written = writer.write_all(b"a").is_ok() && writer.write_all(b"b").is_ok();
    let is_flushed = writer.flush().is_ok();
    assert_same!(rt; (is_written, is_flushed, writer.opener.openings), (true, true, 1));
    assert_same!(rt; writer.device.as_ref().map(|bytes| bytes.as_slice()), Some(b"ab".as_slice()));
}

#[test]
fn failed_opening_is_a_failed_write(rt: HostRuntime) {
    let mut writer = OnFirstWrite::new(LoopbackPort::new(rt.alloc(), true));
    let fails = writer.write(b"a").is_err() && writer.write(b"a").is_err();
    assert_same!(rt; (fails, writer.opener.openings, writer.device.is_none()), (true, 2, true));
}

/// Opens a device that takes all bytes, but whose flush fails.
#[derive(Drop)]
struct Stuck;

impl Open for Stuck {
    type Device = Stuck;

    ghost opens = { λ s opened. ⊤ };

    fn open(&mut self) -> io::Result<Stuck> {
        Ok(Stuck)
    }
}

impl Write for Stuck {
    ghost contents = { λ s. None };

    fn write(&mut self, buf: &[u8]) -> io::Result<usize> {
        Ok(buf.len())
    }

    fn flush(&mut self) -> io::Result<()> {
        Err(ErrorKind::StorageFull.into())
    }
}

/// A flush goes to the device if that is open, and does nothing before.
#[test]
fn flushes_the_open_device(rt: HostRuntime) {
    let mut writer = OnFirstWrite::new(Stuck);
    assert!(rt; writer.flush().is_ok());
    assert!(rt; writer.write_all(b"a").is_ok());
    assert!(rt; writer.flush().is_err());
}

/// How many bytes a device takes before it fails, and what is printed of `hello`.
static BEGINNINGS: [(usize, &str); 4] = [(8, "hello"), (5, "hello"), (4, "hell"), (0, "")];

/// A text is printed in as many writes as it needs. If the device fails, a beginning of the text is printed.
#[test]
fn prints_the_text_or_a_beginning(rt: HostRuntime) {
    for (room, text) in &BEGINNINGS {
        let mut out = Meter::new(Sink::new(Vec::new(rt.alloc()), *room + 1));
        let printed = print(&mut out, "hello");
        let found = (out.device.bytes.as_slice(), printed.is_err(), out.failed());
        let fails = *room < 5;
        assert_same!(rt; found, (text.as_bytes(), fails, fails), room);
        assert!(rt; printed.is_ok() || printed == Err(Fault::Link));
    }
}

#[test]
fn prints_without_a_flush(rt: HostRuntime) {
    assert!(rt; print(&mut Meter::new(Stuck), "hello").is_ok());
}

/// Printing an empty text does not open the device.
#[test]
fn prints_on_what_cannot_be_opened(rt: HostRuntime) {
    let mut shut = Meter::new(OnFirstWrite::new(LoopbackPort::new(rt.alloc(), true)));
    assert!(rt; print(&mut shut, "").is_ok());
    assert!(rt; print(&mut shut, "hello").is_err());
    assert_same!(rt; shut.device.opener.openings, 1);
}
