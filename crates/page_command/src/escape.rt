//! Text inside of a page's script.

ghost use Rattle.std.specs.Prelude.{◌≡◌, ◌++◌, OnOk, string_bytes};
ghost use Rattle.std.specs.List.{list_any};
ghost use Rattle.page_command.specs.Pages.{escaped, escaped_char, is_special};

use std::alloc::AllocError;

/// Appends a text in which no tag begins: a per cent sign as `%25`, and the sign that begins a tag as `%3c`.
///
/// # Errors
///
/// [`AllocError`] if there is no memory for it.
// The data of a page has no such sign, so it is appended whole, and not letter by letter.
pub fn push_escaped(text: &mut String, shown: &str) -> Result<(), AllocError>
    ensures { OnOk result (string_bytes text.new ≡ string_bytes text.old ++ escaped shown.now) }
{
    if has_special(shown.as_bytes()) {
        push_each(text, shown)?;
    } else {
        text.push_str(shown)?;
    }
    Ok(())
}

/// Whether some byte is escaped.
fn has_special(bytes: &[u8]) -> bool
    ensures { result ≡ list_any is_special bytes.now }
{
    bytes.iter().any(|byte| *byte == b'%' || *byte == b'<')
}

/// Appends each character of a text, escaped.
fn push_each(text: &mut String, shown: &str) -> Result<(), AllocError>
    ensures { OnOk result (string_bytes text.new ≡ string_bytes text.old ++ escaped shown.now) }
{
    for letter in shown.chars() {
        push_escaped_char(text, letter)?;
    }
    Ok(())
}

/// Appends a character in which no tag begins.
fn push_escaped_char(text: &mut String, letter: char) -> Result<(), AllocError>
    ensures { OnOk result (string_bytes text.new ≡ string_bytes text.old ++ escaped_char letter) }
{
    match letter {
        '%' => text.push_str("%25"),
        '<' => text.push_str("%3c"),
        _ => text.push(letter),
    }
}
