//! The words of a text.

ghost use Rattle.std.specs.Prelude.{◌≡◌, ◌∷◌, [], MatchOption};
ghost use Rattle.state_conditions.specs.Texts.{words_of};

/// The first word of a text, and the text after it; None if the text has none. Blanks are between words.
pub(crate) fn next_word(text: &str) -> Option<(&str, &str)>
    ensures { MatchOption result (words_of text.now ≡ [])
        (λ x. words_of text.now ≡ x.0.now ∷ words_of x.1.now) }
{
    let mut rest = text;
    while let Some((word, after)) = rest.split_once(' ') {
        if !word.is_empty() {
            return Some((word, after));
        }
        rest = after;
    }
    if rest.is_empty() {
        None
    } else {
        Some((rest, ""))
    }
}
