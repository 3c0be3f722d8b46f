//! Cutting a piece of a line.

ghost use Rattle.std.specs.Prelude.{◌≡◌, ◌<◌, ◌≤◌, ◌+◌, ◌==◌, length, take, drop, MatchOption};
ghost use Rattle.std.specs.List.{position_or_len};
ghost use Rattle.std.specs.Option.{option_map};
ghost use Rattle.word_faults.specs.Spans.{span, span_of, end_of, round_byte, both_trimmed, trimmed_span, cut_span};
ghost use Rattle.word_faults.specs.Spans.{bracketed_span};
ghost use Rattle.word_faults.specs.WrongOperands.{statement_spans};

use crate::piece::Piece;
use crate::positions::{blank_position, blanks_before, position_of};
use asm_lines::{cut_last, trim};

impl<'a> Piece<'a> {
    /// The piece that is a whole line.
    pub fn line(bytes: &'a [u8]) -> Piece<'a>
        ensures { span_of result ≡ span 0 bytes.now }
    {
        let _count = bytes.len();
        Piece { start: 0, bytes }
    }

    /// The empty piece at the end of this one.
    pub fn end(self) -> Piece<'a>
        ensures { span_of result ≡ end_of (span_of self.entry) }
    {
        Piece {
            start: self.start + self.bytes.len(),
            bytes: &[],
        }
    }

    /// The piece without the blanks at its ends.
    #[tactic(auto, using(crate::proofs::Cutting::trimmed_within))]
    pub fn trim(self) -> Piece<'a>
        ensures { span_of result ≡ trimmed_span (span_of self.entry) }
    {
        Piece {
            start: self.start + blanks_before(self.bytes),
            bytes: trim(self.bytes),
        }
    }

    /// The pieces before and after the byte at this place.
    fn round(self, at: usize) -> (Piece<'a>, Piece<'a>)
        requires { at < length self.bytes.now }
        ensures { (span_of result.0, span_of result.1)
            ≡ round_byte self.entry.start (take at self.entry.bytes.now, drop (at + 1) self.entry.bytes.now) }
    {
        let front = Piece {
            start: self.start,
            bytes: self.bytes.split_at(at).0,
        };
        let behind = Piece {
            start: self.start + at + 1,
            bytes: self.bytes.split_at(at + 1).1,
        };
        (front, behind)
    }

    /// The pieces before and after the first `mark`, if there is one.
    #[tactic(auto, unfolding(asm_lines::specs::Text::cut_at))]
    pub fn cut(self, mark: u8) -> Option<(Piece<'a>, Piece<'a>)>
        ensures value { option_map (λ parts. (span_of parts.0, span_of parts.1)) result
            ≡ cut_span (λ b. b == mark) (span_of self.entry) }
        ensures parts { MatchOption result (position_or_len (λ b. b == mark) self.entry.bytes.now
            ≡ length self.entry.bytes.now)
            (λ parts. position_or_len (λ b. b == mark) self.entry.bytes.now < length self.entry.bytes.now) }
    {
        match position_of(self.bytes, mark) {
            Some(at) => Some(self.round(at)),
            None => None,
        }
    }

    /// The pieces before and after the first blank; without a blank, the whole piece and an empty one.
    #[tactic(auto, unfolding(asm_lines::specs::Text::cut_at))]
    pub fn cut_blank(self) -> (Piece<'a>, Piece<'a>)
        ensures { (span_of result.0, span_of result.1) ≡ statement_spans (span_of self.entry) }
    {
        match blank_position(self.bytes) {
            Some(at) => self.round(at),
            None => (self, self.end()),
        }
    }

    /// The pieces `front`, at the start of this one, and `inside`, one byte after it, without the blanks around them.
    fn round_bracket(self, front: &'a [u8], inside: &'a [u8]) -> (Piece<'a>, Piece<'a>)
        requires { length front.now + 1 + length inside.now ≤ length self.bytes.now }
        ensures { (span_of result.0, span_of result.1)
            ≡ both_trimmed (round_byte self.entry.start (front.now, inside.now)) }
    {
        let before = Piece {
            start: self.start,
            bytes: front,
        };
        let within = Piece {
            start: self.start + front.len() + 1,
            bytes: inside,
        };
        (before.trim(), within.trim())
    }

    /// The pieces before and within the brackets at the end of this one.
    pub fn bracket_parts(self) -> Option<(Piece<'a>, Piece<'a>)>
        ensures { option_map (λ parts. (span_of parts.0, span_of parts.1)) result
            ≡ bracketed_span (span_of self.entry) }
    {
        let [body @ .., b')'] = self.bytes else {
            return None;
        };
        match cut_last(body, b'(') {
            Some((front, inside)) => Some(self.round_bracket(front, inside)),
            None => None,
        }
    }
}
