//! Streams in pieces, and commands worked out by hand.

ghost use Rattle.std.specs.Prelude.{◌<◌};

use arrayvec::ArrayVec;
use debug_lines::{Command, Event, LineReader, MAX_LINE, pack};
use std::alloc::{AllocError, Global};
use std::test::Fail;
use test_support::assert_same;

/// Lines, each with the command that it asks for. One space is between the words of a line.
const COMMANDS: &str = "\
state 0: State { processor: 0 }
state ffffffff: State { processor: 4294967295 }
regs 3f: Registers { processor: 63 }
reg 0 20: Register { processor: 0, register: 32 }
reg 8 21: Register { processor: 8, register: 33 }
set 0 1 7: Set { processor: 0, register: 1, value: 7 }
set 0 20 00010002: Set { processor: 0, register: 32, value: 65538 }
mem 0 80000000 4: Memory { processor: 0, address: 2147483648, length: 4 }
mem 1 1FFFF 200: Memory { processor: 1, address: 131071, length: 512 }
write 0 80000000 2a000000: Write { processor: 0, address: 2147483648, bytes: Written { bytes: [42, 0, 0, 0] } }
write 0 20000 Aa: Write { processor: 0, address: 131072, bytes: Written { bytes: [170] } }
break 10004: Break { address: 65540 }
clear 10004: Clear { address: 65540 }
step 1f: Step { processor: 31 }
cont: Continue
quit: Quit
";

/// Lines that are malformed.
const MALFORMED: &str = "\
\x20
state
state\x20
state  0
state 0\x20
 state 0
state 000000000
state g
state -1
state +1
state 0x1
state 0 0
State 0
states 0
regs
reg 0
reg 0 1 2
reg 0  1
set 0 1
set 0 1\x20
mem 0 80000000 0
mem 0 80000000 201
mem 0 80000000
write 0 80000000
write 0 80000000\x20
write 0 80000000 2
write 0 80000000 2a0
write 0 80000000 2g
write 0 80000000 2a 2b
break
break 10004 1
clear
step
step 0\r
cont\x20
cont 0
quit\r
quit 0
quitt
";

#[test]
fn commands(rt: HostRuntime) -> Result<(), Fail> {
    for row in COMMANDS.lines() {
        let (line, expected) = row.split_once(": ").ok_or("a row")?;
        let command = Command::read(line.as_bytes());
        assert_same!(rt; format!(in rt.alloc(); "{command:?}")?.as_str(), expected, line);
    }
    Ok(())
}

#[test]
fn malformed(rt: HostRuntime) {
    assert!(rt; matches!(Command::read(b""), Command::Malformed));
    assert!(rt; matches!(Command::read(b"state \xFF"), Command::Malformed));
    for line in MALFORMED.split('\n') {
        let command = Command::read(line.as_bytes());
        assert!(rt; matches!(command, Command::Malformed), "{line}");
    }
}

/// The longest line writes 507 bytes. A longer one is malformed.
#[test]
fn longest_write(rt: HostRuntime) -> Result<(), Fail> {
    let mut line = Vec::new(rt.alloc());
    line.extend_from_slice(b"write 0 0 ")?;
    for _ in 0..507 {
        line.extend_from_slice(b"5A")?;
    }
    assert_same!(rt; line.len(), MAX_LINE);
    let Command::Write { bytes, .. } = Command::read(line.as_slice()) else {
        return Err("a write".into());
    };
    assert_same!(rt; bytes.bytes().len(), 507);
    assert!(rt; bytes.bytes().iter().all(|byte| *byte == 0x5A));
    line.extend_from_slice(b"5A")?;
    assert!(rt; matches!(Command::read(line.as_slice()), Command::Malformed));
    Ok(())
}

/// The events of a stream that comes in pieces of this size: each line, or `!` if it is too long, with a bar after it.
fn reported(alloc: Global, stream: &[u8], size: usize) -> Result<Vec<u8>, AllocError>
    requires { 0 < size }
{
    let mut reported = Vec::new(alloc);
    let mut reader = LineReader::new();
    for piece in stream.chunks(size) {
        let mut rest = piece;
        while !rest.is_empty() {
            let (count, event) = reader.feed(rest);
            rest = &rest[count..];
            match event {
                Some(Event::Line(line)) => reported.extend_from_slice(line.bytes())?,
                Some(Event::TooLong) => reported.push(b'!')?,
                None => continue,
            }
            reported.push(b'|')?;
        }
    }
    Ok(reported)
}

/// Lines are the same wherever the stream is cut. Bytes after the last line feed are no line.
#[test]
fn lines_in_any_pieces(rt: HostRuntime) -> Result<(), Fail> {
    let stream = b"state 0\n\n cont\r\n\xFF\0\nquit";
    for size in 1..=stream.len() {
        let lines = reported(rt.alloc(), stream, size)?;
        assert_same!(rt; lines.as_slice(), b"state 0|| cont\r|\xFF\0|".as_slice(), size);
    }
    Ok(())
}

/// A line has at most 1,024 bytes, and the line after a longer one is read as usual.
#[test]
fn longest_line(rt: HostRuntime) -> Result<(), Fail> {
    let alloc = rt.alloc();
    for (length, is_too_long) in [
        (1023, false),
        (1024, false),
        (1025, true),
        (2049, true),
        (5000, true),
    ] {
        let mut stream = vec![in alloc; b'a'; length]?;
        stream.extend_from_slice(b"\nquit\n")?;
        let mut expected = Vec::new(alloc);
        if is_too_long {
            expected.push(b'!')?;
        } else {
            expected.extend_from_slice(&stream.as_slice()[..length])?;
        }
        expected.extend_from_slice(b"|quit|")?;
        for size in [1, 256, 1023, 1024, 1025, 6000] {
            let lines = reported(alloc, stream.as_slice(), size)?;
            assert!(rt;
                lines.as_slice() == expected.as_slice(),
                "{length} bytes in pieces of {size}"
            );
        }
    }
    Ok(())
}

/// A packed line replaces what was there.
#[test]
fn packs(rt: HostRuntime) {
    let mut packed = ArrayVec::new();
    pack(b"00010004", &mut packed);
    assert_same!(rt; packed.as_slice(), b"00010004\n".as_slice());
    pack(b"", &mut packed);
    assert_same!(rt; packed.as_slice(), b"\n".as_slice());
    pack(&[b'0'; 1024], &mut packed);
    assert_same!(rt; packed.len(), 1025);
    assert_same!(rt; packed.as_slice().last().copied(), Some(b'\n'));
}
