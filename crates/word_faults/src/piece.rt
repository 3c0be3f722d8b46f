//! A piece of a line.

ghost use Rattle.std.specs.Prelude.{◌≤◌, ◌+◌, ◌^◌, length};

/// A piece of a line.
#[derive(Clone, Copy, Drop)]
pub struct Piece<'a> {
    /// The position of its first byte in the line, from 0.
    pub start: usize,
    /// Its bytes.
    pub bytes: &'a [u8],
    ghost within: { start + length bytes.now ≤ 2 ^ 63 },
}
