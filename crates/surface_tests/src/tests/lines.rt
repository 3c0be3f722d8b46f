//! Lines of a stream, and the commands that they ask for.

use arrayvec::ArrayVec;
use debug_lines::{Command, Event, LineReader, pack};
use test_support::assert_same;

/// How many bytes of a piece a reader takes, and the length of the line if these end one, or `usize::MAX` if it is too
/// long.
fn fed(reader: &mut LineReader, piece: &[u8]) -> (usize, Option<usize>) {
    let (count, event) = reader.feed(piece);
    let length = match event {
        Some(Event::Line(line)) => Some(line.bytes().len()),
        Some(Event::TooLong) => Some(usize::MAX),
        None => None,
    };
    (count, length)
}

#[test]
fn streams_have_lines(rt: HostRuntime) {
    let mut reader = LineReader::new();
    assert_same!(rt; fed(&mut reader, b"quit\nst"), (5, Some(4)));
    assert_same!(rt; fed(&mut reader, b"st"), (2, None));
    assert_same!(rt; fed(&mut reader, b"ate 0\n"), (6, Some(7)));
    assert_same!(rt; fed(&mut reader, &[b'a'; 1025]), (1025, None));
    assert_same!(rt; fed(&mut reader, b"\n"), (1, Some(usize::MAX)));
}

#[test]
fn lines_are_packed(rt: HostRuntime) {
    let mut packed = ArrayVec::new();
    pack(b"halted", &mut packed);
    pack(b"ok", &mut packed);
    assert_same!(rt; packed.as_slice(), b"ok\n".as_slice());
}

#[test]
fn lines_ask_for_commands(rt: HostRuntime) {
    assert!(rt; matches!(Command::read(b"step 1f"), Command::Step { processor: 31 }));
    assert!(rt; matches!(Command::read(b"quit"), Command::Quit));
    assert!(rt; matches!(Command::read(b"step"), Command::Malformed));
}
