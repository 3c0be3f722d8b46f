//! How a text is cut at a word that stands in it.

ghost use Rattle.std.specs.Prelude.{◌≡◌, ◌<◌, ◌∷◌, [], IfSome, MatchOption, false, length, option_map};
ghost use Rattle.line_shapes.specs.Cuts.{after, is_nil, upto, words_of};

/// What follows a beginning of the text; None if the text does not begin so.
pub fn after<'a>(begin: &str, text: &'a str) -> Option<&'a str>
    ensures { option_map (λ rest. rest.now) result ≡ after begin.now text.now }
{
    text.strip_prefix(begin)
}

/// The text before the first place where the word stands, and the text from there on; None if it stands nowhere.
pub fn upto<'a>(word: &str, text: &'a str) -> Option<(&'a str, &'a str)>
    ensures { option_map (λ x. (x.0.now, x.1.now)) result ≡ upto word.now text.now }
{
    match text.find(word) {
        Some(at) => Some((&text[..at], &text[at..])),
        None => None,
    }
}

/// The first word of a text, and the text after the blank that ends it; None if the text is one word.
pub fn first_word(text: &str) -> Option<(&str, &str)>
    ensures words { MatchOption result (words_of text.now ≡ text.now ∷ [])
        (λ x. words_of text.now ≡ x.0.now ∷ words_of x.1.now) }
    ensures more { IfSome result (λ x. is_nil (words_of x.1.now) ≡ false) }
    ensures shorter { IfSome result (λ x. length x.1.now < length text.now) }
{
    text.split_once(' ')
}
