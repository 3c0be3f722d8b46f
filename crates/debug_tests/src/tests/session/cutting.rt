//! Streams in pieces.

use super::{THREE, adders, talk};
use debug_session::SessionEnd;
use link::Meter;
use machine_log::Logged;
use std::alloc::{AllocGlobal, Global};
use std::io;
use std::io::Read;
use std::process::Abort;
use std::sync::Wait;
use std::test::Fail;
use test_support::{Source, assert_same, enter_adds, lend, log_of, prepared, size};

/// Gives the first part of its bytes, and at the next call the rest.
#[derive(Drop)]
struct Parts<'a> {
    first: &'a [u8],
    rest: &'a [u8],
}

impl<'a> Read for Parts<'a> {
    fn read(&mut self, buf: &mut [u8]) -> io::Result<usize> {
        let count = self.first.len().min(buf.len());
        let (given, left) = self.first.split_at(count);
        buf[..count].copy_from_slice(given);
        self.first = left;
        if left.is_empty() {
            self.first = self.rest;
            self.rest = &[];
        }
        Ok(count)
    }
}

/// The log of the four adders after their references have combined and retired: word 0 is 25.
fn added(alloc: Global) -> Result<Logged, Fail> {
    prepared(adders(alloc)?, |log| {
        enter_adds(log, 11)?;
        log.drain()?;
        Ok(())
    })
}

/// What a session on this log writes that reads this device to its end.
fn written<R: Read + Drop>(
    rt: &(impl Wait + Abort + AllocGlobal),
    log: Logged,
    device: R,
) -> Vec<u8> {
    lend(log, |log| {
        let (end, text) = talk(rt, log, &mut Meter::new(device));
        assert_same!(rt; end, SessionEnd::EndOfInput);
        text
    })
}

/// Wherever the stream is cut, the reply is the same.
#[test]
fn in_two_parts(rt: HostRuntime) -> Result<(), Fail> {
    let input = b"mem 0 80000000 4\n";
    for at in 0..input.len() {
        let (first, rest) = input.split_at(at + 1);
        let text = written(&rt, added(rt.alloc())?, Parts { first, rest });
        assert_same!(rt; text.as_slice(), b"19000000\n".as_slice(), at);
    }
    let text = written(&rt, added(rt.alloc())?, b"mem 0 80000000 4".as_slice());
    assert!(rt; text.as_slice().is_empty());
    Ok(())
}

/// So are the replies of a session with a break, even if each read gives one byte.
#[test]
fn stops_in_two_parts(rt: HostRuntime) -> Result<(), Fail> {
    let input = b"break 10004\ncont\nreg 0 20\ncont\n";
    let output = b"ok\nat 0\n00010004\nhalted\n".as_slice();
    for at in 0..input.len() {
        let (first, rest) = input.split_at(at + 1);
        let text = written(
            &rt,
            log_of(rt.alloc(), THREE, size(0))?,
            Parts { first, rest },
        );
        assert_same!(rt; text.as_slice(), output, at);
    }
    let text = written(
        &rt,
        log_of(rt.alloc(), THREE, size(0))?,
        Source::new(input, 0),
    );
    assert_same!(rt; text.as_slice(), output);
    Ok(())
}
