//! Sessions of small machines.

use super::{ROW, THREE, adders, replies_are};
use debug_session::SessionEnd;
use std::alloc::{AllocError, Global};
use std::test::Fail;
use test_support::{assert_same, enter_adds, lend, log_of, size};

/// Sessions, each on a new machine of four processors, with their replies.
static FOUR: &[(&str, &str)] = &[
    // The reference is at address 0, where there is no memory.
    (
        "step 0\nstate 0\nstate 3\nstate 4\n",
        "at 0\nfault 5\nrun\nE03\n",
    ),
    // A processor that has stopped takes no instruction.
    (
        "step 1\nstep 1\nregs 4\nstate 1\n",
        "at 1\nat 1\nE03\nfault 5\n",
    ),
    ("mem 0 80000000 0\n", "E01\n"),
    ("reg 8 1\n", "E03\n"),
    ("reg 0 21\n", "E04\n"),
    ("set 0 20 10002\n", "E02\n"),
    ("set 0 1 7\nreg 0 1\nreg 1 1\n", "ok\n00000007\n00000000\n"),
    // Nothing is written to register 0, and `pc` is register 32.
    (
        "set 0 0 7\nreg 0 0\nset 3 20 10004\nreg 3 20\n",
        "ok\n00000000\nok\n00010004\n",
    ),
    // Two shared words, which all processors see, and local memory, which only its own processor sees.
    (
        "write 0 80000002 01020304\nmem 3 80000000 8\nwrite 1 20000 Ab\nmem 1 20000 2\nmem 0 20000 2\n",
        "ok\n0000010203040000\nok\nab00\n0000\n",
    ),
    // Shared memory has 1,024 words. Code cannot be written.
    (
        "write 0 80000ffe 010203\nwrite 0 80000ffe 0102\nmem 0 80000ffe 2\nwrite 0 1fffe 010203\nmem 0 10000 4\n",
        "E02\nok\n0102\nE02\n2f25b600\n",
    ),
    // Of several errors the one with the smallest number is reported: an address before a processor.
    (
        "mem 4 0 1\nset 4 21 1\nset 3 21 1\nbreak 10002\nclear 20000\n",
        "E02\nE03\nE04\nE02\nE02\n",
    ),
    // Lines that are no commands. A word has to be in lower case, and a number need not be.
    (
        "state 0\r\nSTATE 0\nstate  0\n\nreg 0 1F\n",
        "E01\nE01\nE01\nE01\n00000000\n",
    ),
    // Bytes after the last line feed do nothing.
    ("set 0 1 7\nset 0 1 8", "ok\n"),
];

#[test]
fn replies_of_four(rt: HostRuntime) -> Result<(), Fail> {
    for (input, output) in FOUR {
        lend(log_of(rt.alloc(), ROW, size(2))?, |log| {
            let end = SessionEnd::EndOfInput;
            replies_are(&rt, log, input.as_bytes(), output.as_bytes(), end);
        });
    }
    Ok(())
}

/// Sessions, each on a new machine of one processor: breaks that are set and cleared, and where `cont` stops.
static ONE: &[(&str, &str)] = &[
    (
        "break 10004\ncont\nreg 0 20\ncont\nstate 0\n",
        "ok\nat 0\n00010004\nhalted\nhalt 00\n",
    ),
    // Two breaks, of which one is set twice and cleared.
    (
        "break 10004\nbreak 10008\nbreak 10004\nclear 10004\nclear 10000\ncont\nreg 0 20\nreg 0 2\ncont\n",
        "ok\nok\nok\nok\nok\nat 0\n00010008\n00000002\nhalted\n",
    ),
    (
        "step 0\nreg 0 1\nstep 0\nstep 0\nstep 0\n",
        "at 0\n00000001\nat 0\nhalted\nhalted\n",
    ),
    // The processor that a fault stops is named. If no processor runs when `cont` begins, none is named.
    (
        "set 0 20 20000\ncont\ncont\nstate 0\n",
        "ok\nat 0\nat -\nfault 2\n",
    ),
    ("quit\nstate 0\n", "ok\n"),
];

#[test]
fn replies_of_one(rt: HostRuntime) -> Result<(), Fail> {
    for (input, output) in ONE {
        let end = if input.starts_with("quit") {
            SessionEnd::Quit
        } else {
            SessionEnd::EndOfInput
        };
        lend(log_of(rt.alloc(), THREE, size(0))?, |log| {
            replies_are(&rt, log, input.as_bytes(), output.as_bytes(), end);
        });
    }
    Ok(())
}

/// If the budget is used up, no processor is named.
#[test]
fn used_up_budget(rt: HostRuntime) -> Result<(), Fail> {
    lend(
        log_of(rt.alloc(), "again: jal x0, again", size(1))?,
        |log| {
            replies_are(&rt, log, b"cont\n", b"at -\n", SessionEnd::EndOfInput);
            assert_same!(rt; log.steps().len(), 1000);
        },
    );
    Ok(())
}

/// The reply to `regs 0`: the word that an add found, its addend, the word's address, and the address after the add.
fn registers(alloc: Global) -> Result<Vec<u8>, AllocError> {
    let mut reply = Vec::new(alloc);
    for register in 0..33u8 {
        reply.extend_from_slice(match register {
            10 => b"0000000a",
            11 => b"00000001",
            12 => b"80000000",
            32 => b"00010004",
            _ => b"00000000",
        })?;
    }
    reply.push(b'\n')?;
    Ok(reply)
}

/// A reference that is open when a session begins is completed before a line is answered: two moves up, a service, two
/// moves down and a turn.
#[test]
fn answers_after_the_drain(rt: HostRuntime) -> Result<(), Fail> {
    lend(adders(rt.alloc())?, |log| {
        enter_adds(log, 1)?;
        let before = log.steps().len();
        let reply = registers(rt.alloc())?;
        replies_are(
            &rt,
            log,
            b"regs 0\n",
            reply.as_slice(),
            SessionEnd::EndOfInput,
        );
        assert_same!(rt; log.steps().len(), before + 6);
        Ok(())
    })
}

/// A line: its start, and after that this many of a byte.
fn line(alloc: Global, start: &str, byte: u8, count: usize) -> Result<Vec<u8>, AllocError> {
    let mut line = vec![in alloc; byte; count]?;
    line.push(b'\n')?;
    let mut whole = Vec::from_slice(alloc, start.as_bytes())?;
    whole.extend_from_slice(line.as_slice())?;
    Ok(whole)
}

/// A line of 1,025 bytes is malformed, whatever it says. One of 1,024 bytes may write 504 bytes: their digits come
/// after 16 bytes.
#[test]
fn longest_lines(rt: HostRuntime) -> Result<(), Fail> {
    for (start, byte, count, output, steps) in [
        ("", b'm', 1025, b"E01\n".as_slice(), 0),
        ("write 0 0020000 ", b'5', 1008, b"ok\n", 504),
        ("write 0 00020000 ", b'5', 1008, b"E01\n", 0),
    ] {
        let input = line(rt.alloc(), start, byte, count)?;
        lend(
            (log_of(rt.alloc(), THREE, size(0))?, input),
            |(log, input)| {
                replies_are(&rt, log, input.as_slice(), output, SessionEnd::EndOfInput);
                assert_same!(rt; log.steps().len(), steps);
            },
        );
    }
    Ok(())
}
