//! Sessions over a connection whose two ends are both in this process.

use super::{BUDGET, THREE};
use debug_session::{SessionEnd, Sweep, serve};
use link::Meter;
use machine_log::Logged;
use std::alloc::AllocGlobal;
use std::io;
use std::io::{Read, Write};
use std::net::{
    Ipv4Addr, Net, OpenListener, OpenStream, Shutdown, SocketAddr, TcpListener, TcpStream,
};
use std::sync::Wait;
use std::test::Fail;
use test_support::{assert_same, lend, log_of, size};

/// The two ends of a connection to a free port of this machine: the debugger's and the session's. The debugger connects
/// before the session accepts.
fn both_ends<R: Net>(net: &R) -> io::Result<(R::Stream, R::Stream)> {
    let listener = TcpListener::bind(net, SocketAddr::from((Ipv4Addr::LOCALHOST, 0)))?;
    let theirs = TcpStream::connect(net, listener.local_addr()?)?;
    let (ours, _) = listener.accept()?;
    Ok((theirs, ours))
}

/// How a session ends whose lines are all sent before it begins, and its replies, which are read after it. They are
/// few, so the connection holds them until then. After the lines, the debugger may say that it sends no more.
fn talk_over<R: Net + Wait + AllocGlobal>(
    rt: &R,
    log: &mut Logged,
    lines: &[u8],
    says_so: bool,
) -> io::Result<(SessionEnd, Vec<u8>)> {
    let (mut theirs, ours) = both_ends(rt)?;
    theirs.write_all(lines)?;
    if says_so {
        theirs.shutdown(Shutdown::Write)?;
    }
    let mut reader = Meter::new(ours.try_clone()?);
    let mut writer = Meter::new(ours);
    let end = serve(rt, &mut reader, &mut writer, log, &mut Sweep, BUDGET);
    drop(reader);
    drop(writer);
    let mut replies = Vec::new(rt.alloc());
    theirs.read_to_end(&mut replies)?;
    Ok((end, replies))
}

/// The lines of a session, its replies, and how it ends.
static SESSIONS: &[(&str, &str, SessionEnd)] = &[
    (
        "break 10004\ncont\nreg 0 20\ncont\nstate 0\n",
        "ok\nat 0\n00010004\nhalted\nhalt 00\n",
        SessionEnd::EndOfInput,
    ),
    (
        "set 0 1 7\nwrite 0 20000 Ab\nmem 0 20000 2\nstate 1\nstate  0\nquit\n",
        "ok\nok\nab00\nE03\nE01\nok\n",
        SessionEnd::Quit,
    ),
    // Bytes after the last line feed do nothing.
    ("set 0 1 7\nset 0 1 8", "ok\n", SessionEnd::EndOfInput),
    ("", "", SessionEnd::EndOfInput),
];

/// After `quit` a session does not wait for the end of its input.
#[test]
fn over_a_connection(rt: HostRuntime) -> Result<(), Fail> {
    for (lines, replies, ends) in SESSIONS {
        let (end, text) = lend(log_of(rt.alloc(), THREE, size(0))?, |log| {
            talk_over(&rt, log, lines.as_bytes(), *ends != SessionEnd::Quit)
        })?;
        assert_same!(rt; text.as_slice(), replies.as_bytes(), lines);
        assert_same!(rt; end, *ends, lines);
    }
    Ok(())
}
