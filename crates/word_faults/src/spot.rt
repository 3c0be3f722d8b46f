//! A word at fault, with what would be right.

ghost use Rattle.std.specs.Prelude.{◌≡◌};
ghost use Rattle.std.specs.Option.{option_map};
ghost use Rattle.word_faults.specs.Advice.{advice_of};
ghost use Rattle.word_faults.specs.Spans.{span_of};
ghost use Rattle.word_faults.specs.Views.{spot_advice, spot_span};
ghost use Rattle.word_faults.specs.WrongOperands.{unless};

use crate::hint::Hint;
use crate::piece::Piece;

/// The word at fault, and what would be right.
#[derive(Drop)]
pub struct Spot<'a> {
    /// The word at fault.
    pub piece: Piece<'a>,
    /// What would be right.
    pub hint: Hint<'a>,
}

impl<'a> Spot<'a> {
    /// The spot, unless everything is right there.
    pub fn unless(is_right: bool, piece: Piece<'a>, hint: Hint<'a>) -> Option<Spot<'a>>
        ensures spot { option_map spot_span result ≡ unless is_right (span_of piece.entry) }
        ensures advice { option_map spot_advice result ≡ unless is_right (advice_of hint.entry) }
    {
        if is_right {
            None
        } else {
            Some(Spot { piece, hint })
        }
    }
}
