//! Positions of bytes in a text.

ghost use Rattle.std.specs.Prelude.{◌≡◌, ◌==◌, not, position};
ghost use Rattle.std.specs.List.{list_any};
ghost use Rattle.asm_lines.specs.Text.{is_blank};
ghost use Rattle.word_faults.specs.Spans.{blanks_before};

/// Whether a byte is a space or a tab.
pub fn is_blank(byte: u8) -> bool
    ensures { result ≡ is_blank byte }
{
    byte == b' ' || byte == b'\t'
}

/// The position of the first byte that is not a blank.
fn solid_position(bytes: &[u8]) -> Option<usize>
    ensures { result ≡ position (λ b. not (is_blank b)) bytes.now }
{
    bytes.iter().position(|byte| !is_blank(*byte))
}

/// The number of blanks at the beginning of a text.
pub fn blanks_before(bytes: &[u8]) -> usize
    ensures { result ≡ blanks_before bytes.now }
{
    match solid_position(bytes) {
        Some(at) => at,
        None => bytes.len(),
    }
}

/// The position of the first `mark`.
pub fn position_of(bytes: &[u8], mark: u8) -> Option<usize>
    ensures { result ≡ position (λ b. b == mark) bytes.now }
{
    bytes.iter().position(|byte| *byte == mark)
}

/// The position of the first blank.
pub fn blank_position(bytes: &[u8]) -> Option<usize>
    ensures { result ≡ position is_blank bytes.now }
{
    bytes.iter().position(|byte| is_blank(*byte))
}

/// Whether a text has a blank.
pub fn has_blank(bytes: &[u8]) -> bool
    ensures { result ≡ list_any is_blank bytes.now }
{
    bytes.iter().any(|byte| is_blank(*byte))
}

/// Whether a text has this byte.
pub fn has(bytes: &[u8], mark: u8) -> bool
    ensures { result ≡ list_any (λ b. b == mark) bytes.now }
{
    bytes.iter().any(|byte| *byte == mark)
}
