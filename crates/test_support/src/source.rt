//! Readers.

ghost use Rattle.std.specs.Prelude.{◌≡◌, ◌+◌, false, Some, IfOk, IsErr};
ghost use Rattle.std.specs.Io.{ReadsAtMost};
ghost use Rattle.std.specs.Io.KnownBytes.{ReadConsumes};

use link::{Link, Meter};
use std::io;
use std::io::{ErrorKind, Read};

/// A reader that gives one byte a call, and fails at one call.
#[derive(Drop)]
pub struct Source<'a> {
    /// The bytes that it has left.
    pub bytes: &'a [u8],
    /// How many calls there were.
    pub calls: usize,
    /// The number of the call that fails, from 1. If it is 0, none fails.
    pub fails_at: usize,
}

impl<'a> Source<'a> {
    /// A source of these bytes, which fails at this call.
    pub fn new(bytes: &'a [u8], fails_at: usize) -> Self
        ensures bytes { result.bytes.now ≡ bytes.now }
        ensures calls { result.calls ≡ 0 }
        ensures fails_at { result.fails_at ≡ fails_at }
    {
        Source {
            bytes,
            calls: 0,
            fails_at,
        }
    }
}

impl<'a> Read for Source<'a> {
    ghost remaining = { λ s. Some s.bytes.now };

    fn read(&mut self, buf: &mut [u8]) -> io::Result<usize>
        ensures bound { ReadsAtMost result buf.new }
        ensures bytes { ReadConsumes (Some self.old.bytes.now) (Some self.new.bytes.now) result buf.new }
        ensures fails { self.old.calls + 1 ≡ self.old.fails_at → IsErr result }
    {
        self.calls = self.calls.saturating_add(1);
        if self.calls == self.fails_at {
            return Err(ErrorKind::Interrupted.into());
        }
        let count = self.bytes.len().min(buf.len()).min(1);
        let (given, rest) = self.bytes.split_at(count);
        buf[..count].copy_from_slice(given);
        self.bytes = rest;
        Ok(count)
    }
}

/// A file that never ends.
#[derive(Drop)]
pub struct Endless;

impl Read for Endless {
    fn read(&mut self, buf: &mut [u8]) -> io::Result<usize> {
        for byte in buf.iter_mut() {
            *byte = b'\n';
        }
        Ok(buf.len())
    }
}

/// A file whose every read fails.
#[derive(Drop)]
pub struct Broken;

impl Read for Broken {
    fn read(&mut self, _buf: &mut [u8]) -> io::Result<usize> {
        Err(ErrorKind::BrokenPipe.into())
    }
}

/// The link of a file, of which no call has failed, where it could be opened.
pub fn metered<R>(file: io::Result<R>) -> io::Result<Meter<R>>
    ensures { IfOk result (λ meter. ⟦<Meter<R> as Link>⟧.has_failed meter ≡ false) }
{
    match file {
        Ok(file) => Ok(Meter::new(file)),
        Err(error) => Err(error),
    }
}
