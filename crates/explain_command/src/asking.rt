//! How a text asks for a topic.

ghost use Rattle.std.specs.Prelude.{◌≡◌, option_map};
ghost use Rattle.std.specs.Char.{is_ascii_digit};
ghost use Rattle.std.specs.List.{list_all};
ghost use Rattle.explain_command.specs.Topics.{is_coded, is_named, is_number, is_numbered, is_place, rest_after};
ghost use Rattle.explain_command.specs.Topics.{without};

/// What follows this beginning, in upper or lower case, if the text begins so.
fn rest_after<'a>(beginning: &[u8], text: &'a [u8]) -> Option<&'a [u8]>
    ensures { option_map (λ rest. rest.now) result ≡ rest_after beginning.now text.now }
{
    let (head, rest) = text.split_at_checked(beginning.len())?;
    if head.eq_ignore_ascii_case(beginning) {
        Some(rest)
    } else {
        None
    }
}

/// The text without this beginning, if it begins so.
pub(crate) fn without<'a>(beginning: &[u8], text: &'a [u8]) -> &'a [u8]
    ensures { result.now ≡ without beginning.now text.now }
{
    match rest_after(beginning, text) {
        Some(rest) => rest,
        None => text,
    }
}

fn are_digits(text: &[u8]) -> bool
    ensures { result ≡ list_all is_ascii_digit text.now }
{
    text.iter().all(|byte| byte.is_ascii_digit())
}

/// Whether it is a number in decimal digits.
fn is_number(text: &[u8]) -> bool
    ensures { result ≡ is_number text.now }
{
    !text.is_empty() && are_digits(text)
}

/// Whether the text is these words, in upper or lower case, and a number.
fn is_numbered(words: &[u8], text: &[u8]) -> bool
    ensures { result ≡ is_numbered words.now text.now }
{
    match rest_after(words, text) {
        Some(number) => is_number(number),
        None => false,
    }
}

/// Whether it is what is printed after a code: the place in a file, or nothing.
fn is_place(text: &[u8]) -> bool
    ensures { result ≡ is_place text.now }
{
    text.is_empty() || is_numbered(b" line ", text) || is_numbered(b" step ", text)
}

/// Whether the text is the name, in upper or lower case.
pub(crate) fn is_named(text: &[u8], name: &str) -> bool
    ensures { result ≡ is_named text.now name.now }
{
    name.as_bytes().eq_ignore_ascii_case(text)
}

/// Whether the text is the name, in upper or lower case, and what is printed after a code.
pub(crate) fn is_coded(text: &[u8], name: &str) -> bool
    ensures { result ≡ is_coded text.now name.now }
{
    match rest_after(name.as_bytes(), text) {
        Some(place) => is_place(place),
        None => false,
    }
}
