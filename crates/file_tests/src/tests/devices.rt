//! What the devices of `test_support` do at their calls, and how it lends a value.

use std::io::{Read, Write};
use test_support::{Broken, Deaf, Endless, Full, Sink, Source, assert_same, lend, prepared};

#[test]
fn gives_a_byte_at_a_call(rt: HostRuntime) {
    let mut source = Source::new(b"ab", 2);
    let mut buf = [0u8; 4];
    assert_same!(rt; source.read(&mut buf).ok(), Some(1));
    assert_same!(rt; buf[0], b'a');
    assert_same!(rt; source.read(&mut buf).ok(), None);
    assert_same!(rt; source.read(&mut buf).ok(), Some(1));
    assert_same!(rt; buf[0], b'b');
    assert_same!(rt; source.read(&mut buf).ok(), Some(0));
    assert_same!(rt; Endless.read(&mut buf).ok(), Some(4));
    assert!(rt; Broken.read(&mut buf).is_err());
}

#[test]
fn takes_a_byte_at_a_call(rt: HostRuntime) {
    let mut sink = Sink::new(Vec::new(rt.alloc()), 2);
    assert_same!(rt; sink.write(b"ab").ok(), Some(1));
    assert_same!(rt; sink.write(b"b").ok(), None);
    assert_same!(rt; sink.write(b"b").ok(), Some(1));
    assert_same!(rt; sink.write(b"").ok(), Some(0));
    assert!(rt; sink.flush().is_ok());
    assert_same!(rt; sink.bytes.as_slice(), b"ab".as_slice());
    assert_same!(rt; Deaf.write(b"ab").ok(), Some(0));
    assert!(rt; Deaf.flush().is_ok());
    assert!(rt; Full.write(b"ab").is_err());
    assert!(rt; Full.flush().is_ok());
}

/// The body sees and changes the value, and its answer is returned.
#[test]
fn lends_a_value(rt: HostRuntime) {
    let answer = lend(1, |number| {
        let before = *number;
        *number = 2;
        (before, *number)
    });
    assert_same!(rt; answer, (1, 2));
}

/// The value comes back as the body leaves it, or the body's error in its place.
#[test]
fn prepares_a_value(rt: HostRuntime) {
    let two: Result<i32, ()> = prepared(1, |number| {
        *number = 2;
        Ok(())
    });
    assert_same!(rt; two, Ok(2));
    assert_same!(rt; prepared(1, |_| Err("no")), Err("no"));
}
