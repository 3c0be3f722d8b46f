//! The parts of a line.

ghost use Rattle.std.specs.Prelude.{◌≡◌, ◌==◌, IfOk, map};
ghost use Rattle.std.specs.Option.{option_map};
ghost use Rattle.word_faults.specs.Spans.{span_of, operand_spans, cut_span};
ghost use Rattle.word_faults.specs.WrongOperands.{spans_of_line, text_span, label_spans};
ghost use Rattle.word_faults.specs.Views.{line_spans};

use crate::piece::Piece;
use asm_lines::is_name;
use std::alloc::{AllocError, Global};

/// The parts of a line, without its comment.
#[derive(Drop)]
pub struct Parts<'a> {
    /// The label's name.
    pub label: Option<Piece<'a>>,
    /// The statement's first word.
    pub word: Piece<'a>,
    /// The text after that.
    pub rest: Piece<'a>,
}

impl<'a> Parts<'a> {
    /// The parts of a line, without its comment.
    #[tactic(auto, unfolding(crate::specs::WrongOperands::spans_of_line))]
    pub fn of(line: &'a [u8]) -> Parts<'a>
        ensures { line_spans result ≡ spans_of_line line.now }
    {
        let (label, statement) = cut_label(text_of(line));
        let (word, rest) = statement.trim().cut_blank();
        Parts { label, word, rest }
    }

    /// The statement's operands. There is at least one, which may be empty.
    pub fn operands(&self, alloc: Global) -> Result<Vec<Piece<'a>>, AllocError>
        ensures { IfOk result (λ operands. map span_of operands.items ≡ operand_spans (span_of self.now.rest)) }
    {
        let mut operands = Vec::new(alloc);
        let mut rest = self.rest;
        while let Some((operand, behind)) = rest.cut(b',') {
            operands.push(operand.trim())?;
            rest = behind;
        }
        operands.push(rest.trim())?;
        Ok(operands)
    }
}

/// The text before the comment.
fn text_of(line: &[u8]) -> Piece<'_>
    ensures { span_of result ≡ text_span line.now }
{
    let whole = Piece::line(line);
    match whole.cut(b'#') {
        Some((text, _)) => text,
        None => whole,
    }
}

/// The label before the colon, and the text after it.
fn cut_label(text: Piece<'_>) -> (Option<Piece<'_>>, Piece<'_>)
    ensures { (option_map span_of result.0, span_of result.1)
        ≡ label_spans (span_of text.entry) (cut_span (λ b. b == 58) (span_of text.entry)) }
{
    if let Some((front, behind)) = text.cut(b':') {
        let name = front.trim();
        if is_name(name.bytes) {
            return (Some(name), behind);
        }
    }
    (None, text)
}
