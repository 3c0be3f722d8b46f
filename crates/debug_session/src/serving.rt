//! The loops of a session.

ghost use Rattle.std.specs.Prelude.{◌≡◌, ◌↔◌, ◌<◌, ◌+◌, true, false, length, is_err, IfNone, IfOk, IfSome, OnErr, OnOk};
ghost use Rattle.machine_steps.specs.Draining.{drain_bound};
ghost use Rattle.machine_steps.specs.Machines.{IsIdle};
ghost use Rattle.debug_session.specs.Answers.{session};
ghost use Rattle.debug_session.specs.Dialogues.{command_of_event, is_quit};
ghost use Rattle.debug_session.specs.Conversations.{AnswersEvent, AnswersEventInPart, Goes, HasServed, IfBegun};
ghost use Rattle.debug_session.specs.Conversations.{IfRefused, StopsWithin};

use crate::answering::answer;
use crate::runner::Runner;
use crate::session_end::SessionEnd;
use arrayvec::ArrayVec;
use debug_lines::{Command, Event, LineReader, pack};
use debug_replies::Breaks;
use link::{Failed, LinkRead, LinkWrite, write_whole};
use machine_log::{LockRefusal, Logged};
use std::sync::Wait;

/// The maximum number of bytes read at once.
const PIECE_BYTES: usize = 256;

/// Serves a session. Takes steps until no reference is open, and then reads lines, at most 256 bytes at once. Executes
/// each complete line, and then writes its reply. The session ends at `quit`, at the end of the input, or if the reader
/// or the writer fails.
///
/// So unless the first steps were refused, the machine has executed all commands that were read, the last of them
/// possibly unanswered. Bytes after the last line feed do nothing. A session waits for its reader, so no contract says
/// that it returns.
pub fn serve<R: LinkRead, W: LinkWrite, C: Runner>(
    rt: &impl Wait,
    reader: &mut R,
    writer: &mut W,
    log: &mut Logged,
    runner: &mut C,
    budget: u32,
) -> SessionEnd
    requires reads { R.has_failed reader.old ≡ false }
    requires writes { W.has_failed writer.old ≡ false }

    // The session ends with a failure of the link exactly if the link failed.
    ensures read_failed { (result ≡ SessionEnd.ReadFailed) ↔ (R.has_failed reader.new ≡ true) }
    ensures write_failed { (result ≡ SessionEnd.WriteFailed) ↔ (W.has_failed writer.new ≡ true) }

    // The session refuses its first steps.
    ensures full { (result ≡ SessionEnd.TraceFull)
        ↔ (4194304 < length log.old.steps + drain_bound log.old.machine.config) }
    ensures unread { IfRefused result (reader.new ≡ reader.old) }
    ensures unwritten { IfRefused result (writer.new ≡ writer.old) }
    ensures refused { IfRefused result (log.new ≡ log.old) }

    // Otherwise, the session is the dialogue of the events read.
    ensures served { IfBegun result (HasServed (C.spec budget) (R.remaining reader.old) (R.remaining reader.new)
        (W.contents writer.old) (W.contents writer.new) log.old log.new result) }
{
    match log.drain() {
        Ok(_) => {}
        Err(LockRefusal::Full) => return SessionEnd::TraceFull,
        Err(_) => return SessionEnd::Memory,
    }
    let mut breaks = Breaks::new();
    let mut lines = LineReader::new();
    let mut piece = [0u8; PIECE_BYTES];
    for _ in rt.forever() {
        let count = match reader.receive(&mut piece) {
            Ok(0) => return SessionEnd::EndOfInput,
            Ok(count) => count,
            Err(Failed) => return SessionEnd::ReadFailed,
        };
        if let Some(end) = serve_piece(
            &piece[..count],
            &mut lines,
            writer,
            log,
            &mut breaks,
            runner,
            budget,
        ) {
            return end;
        }
    }
    unreachable!()
}

/// Answers the events that end in a piece of the input.
fn serve_piece<W: LinkWrite, C: Runner>(
    piece: &[u8],
    lines: &mut LineReader,
    writer: &mut W,
    log: &mut Logged,
    breaks: &mut Breaks,
    runner: &mut C,
    budget: u32,
) -> Option<SessionEnd>
    requires writes { W.has_failed writer.old ≡ false }
    requires idle { IsIdle log.old.machine }
    ensures failed { (result ≡ Some SessionEnd.WriteFailed) ↔ (W.has_failed writer.new ≡ true) }
    ensures idle { IsIdle log.new.machine }
    ensures goes { IfNone result (Goes (C.spec budget) lines.old (session log.old breaks.old) (W.contents writer.old)
        piece.now lines.new (session log.new breaks.new) (W.contents writer.new)) }
    ensures stops { IfSome result (StopsWithin (C.spec budget) lines.old (session log.old breaks.old)
        (W.contents writer.old) piece.now lines.new (session log.new breaks.new) (W.contents writer.new)) }
{
    let mut rest = piece;
    while !rest.is_empty() {
        let (count, event) = lines.feed(rest);
        rest = &rest[count..];
        if let Some(event) = event {
            match serve_event(&event, writer, log, breaks, runner, budget) {
                Ok(false) => {}
                Ok(true) => return Some(SessionEnd::Quit),
                Err(Failed) => return Some(SessionEnd::WriteFailed),
            }
        }
    }
    None
}

/// Executes the command of an event, and then writes the reply. Returns whether the event ends the session.
fn serve_event<W: LinkWrite, C: Runner>(
    event: &Event,
    writer: &mut W,
    log: &mut Logged,
    breaks: &mut Breaks,
    runner: &mut C,
    budget: u32,
) -> Result<bool, Failed>
    requires writes { W.has_failed writer.old ≡ false }
    requires idle { IsIdle log.old.machine }
    ensures failed { W.has_failed writer.new ≡ is_err result }
    ensures idle { IsIdle log.new.machine }
    ensures quits { IfOk result (λ quits. quits ≡ is_quit event.now) }
    ensures answered { OnOk result (AnswersEvent (C.spec budget) (session log.old breaks.old) (W.contents writer.old)
        event.now (session log.new breaks.new) (W.contents writer.new)) }
    ensures cut { OnErr result (AnswersEventInPart (C.spec budget) (session log.old breaks.old)
        (W.contents writer.old) event.now (session log.new breaks.new) (W.contents writer.new)) }
{
    let command = command_of_event(event);
    let mut text = ArrayVec::new();
    answer(&command, log, breaks, runner, budget, &mut text);
    let mut packed = ArrayVec::new();
    pack(text.as_slice(), &mut packed);
    write_whole(writer, packed.as_slice())?;
    Ok(matches!(command, Command::Quit))
}

/// The command that an event asks for. A line that is too long is malformed.
fn command_of_event(event: &Event) -> Command
    ensures { result ≡ command_of_event event.now }
{
    match event {
        Event::Line(line) => Command::read(line.bytes()),
        Event::TooLong => Command::Malformed,
    }
}
