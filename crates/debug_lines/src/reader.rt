//! The lines of a stream of bytes that comes in pieces.

ghost use Rattle.std.specs.Prelude.{List, slice_index, ◌+◌, ◌-◌, ◌≡◌, ◌≤◌, ◌<◌, ℕ, [], ◌∷◌, ◌++◌, length, take, IsSome};
ghost use Rattle.std.specs.Prelude.{IfSome, IfNone, option_to_list};
ghost use Rattle.debug_lines.specs.Lines.{IsAfter, IsUnbroken, held_of, held_more, event_of_held};

use arrayvec::ArrayVec;
use std::marker::Model;

/// The most bytes of a line, without its line feed.
pub const MAX_LINE: usize = 1024;

const LINE_FEED: u8 = b'\n';

/// A line of at most 1,024 bytes, without its line feed.
#[derive(Debug, Drop)]
pub struct Line {
    text: ArrayVec<u8, 1024>,
}

impl Model for Line {
    ghost use Rattle.std.specs.Prelude.{List, ℕ, ◌≤◌, length};

    ghost Value = { List ℕ };

    ghost view = { λ l. l.text.items };
}

impl Line {
    /// The line's bytes.
    pub fn bytes(&self) -> &[u8]
        ensures line { result.now ≡ self.now }
        ensures short { length result.now ≤ 1024 }
    {
        self.text.as_slice()
    }
}

/// What a line feed ends.
#[derive(Debug, Drop)]
pub enum Event {
    /// A line that is short enough to be read.
    Line(Line),
    /// Over 1,024 bytes before the line feed.
    TooLong,
}

/// Finds the lines of a stream. It keeps what came after the last line feed: at most 1,024 bytes, or the fact that
/// there were more.
#[derive(Debug, Drop)]
pub struct LineReader {
    text: ArrayVec<u8, 1024>,
    is_too_long: bool,
}

impl Model for LineReader {
    ghost use Rattle.std.specs.Prelude.{List, ℕ, Option, Some, None, if◌then◌else◌};

    ghost Value = { Option (List ℕ) };

    ghost view = { λ r. if r.is_too_long then None else Some r.text.items };
}

impl LineReader {
    /// A reader at the beginning of a stream.
    pub fn new() -> Self
        ensures { IsAfter [] [] result }
    {
        LineReader {
            text: ArrayVec::new(),
            is_too_long: false,
        }
    }

    /// Takes bytes up to the first line feed, which completes an event. If the piece has no line feed, takes all its
    /// bytes. Returns how many it took, and the event.
    pub fn feed(&mut self, piece: &[u8]) -> (usize, Option<Event>)
        ensures within { result.0 ≤ length piece.now }
        ensures all { IfNone result.1 (result.0 ≡ length piece.now) }
        ensures some { IsSome result.1 → 0 < result.0 }
        ensures at_line_feed { IsSome result.1 → (slice_index piece.now (result.0 - 1) ≡ 10)
            × IsUnbroken (take (result.0 - 1) piece.now) }
        // Whatever came before: all bytes so far stand for the events so far and this one.
        ensures events { (bytes : List ℕ) (events : List Event) → IsAfter bytes events self.old
            → IsAfter (bytes ++ take result.0 piece.now) (events ++ option_to_list result.1) self.new }
    {
        match find_line_feed(piece) {
            None => {
                self.hold(piece);
                (piece.len(), None)
            }
            Some(at) => {
                self.hold(&piece[..at]);
                (at + 1, Some(self.finish()))
            }
        }
    }

    /// Keeps bytes, none of them a line feed.
    fn hold(&mut self, bytes: &[u8])
        ensures { self.new ≡ held_more self.old bytes.now }
    {
        if !self.is_too_long && self.text.try_extend_from_slice(bytes).is_err() {
            self.is_too_long = true;
        }
    }

    /// Returns the event at a line feed, by what was kept. Keeps nothing.
    fn finish(&mut self) -> Event
        ensures event { result ≡ event_of_held self.old }
        ensures empty { self.new ≡ held_of [] }
    {
        let text = std::mem::replace(&mut self.text, ArrayVec::new());
        if self.is_too_long {
            self.is_too_long = false;
            Event::TooLong
        } else {
            Event::Line(Line { text })
        }
    }
}

/// Replaces the packed line by the bytes followed by a line feed.
pub fn pack(bytes: &[u8], packed: &mut ArrayVec<u8, 1025>)
    requires { length bytes.now ≤ 1024 }
    ensures { packed.new.items ≡ bytes.now ++ 10 ∷ [] }
{
    packed.clear();
    let _ = packed.try_extend_from_slice(bytes);
    packed.push(LINE_FEED);
}

/// The place of the first line feed.
fn find_line_feed(bytes: &[u8]) -> Option<usize>
    ensures none { IfNone result (IsUnbroken bytes.now) }
    ensures some { IfSome result (λ at. (at < length bytes.now) × IsUnbroken (take at bytes.now)
        × (slice_index bytes.now at ≡ 10)) }
{
    for (i, byte) in bytes.iter().enumerate() {
        if *byte == LINE_FEED {
            return Some(i);
        }
    }
    None
}
