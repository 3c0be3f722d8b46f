//! Numbers in a file, and parts of it.

ghost use Rattle.std.specs.Prelude.{◌≡◌, ◌≤◌, ◌<◌, ◌+◌, ◌-◌, ◌/◌, ◌∷◌, ◌==◌, [], IfSome, MatchOption};
ghost use Rattle.std.specs.Prelude.{drop, length, min, position, take};
ghost use Rattle.symbol_table.specs.Parts.{number_at, part_of, parts_at, whole_count};

use byteorder::{ByteOrder, LittleEndian};

/// The little-endian number that two bytes of a file make.
#[tactic(auto, unfolding(crate::specs::Parts::number_at))]
pub fn half_at(file: &[u8], place: usize) -> u16
    requires { place + 2 ≤ length file.now }
    ensures { result ≡ number_at file.now place 2 }
{
    LittleEndian::read_u16(&file[place..])
}

/// The little-endian number that four bytes of a file make.
#[tactic(auto, unfolding(crate::specs::Parts::number_at))]
pub fn word_at(file: &[u8], place: usize) -> u32
    requires { place + 4 ≤ length file.now }
    ensures { result ≡ number_at file.now place 4 }
{
    LittleEndian::read_u32(&file[place..])
}

/// How many records of this size end within the file, of `count` that follow each other from `start` on.
pub fn whole_count(file: &[u8], start: usize, size: usize, count: usize) -> usize
    requires { 0 < size }
    ensures { result ≡ whole_count file.now start size count }
{
    count.min(file.len().saturating_sub(start) / size)
}

/// The bytes from a place on, or none past the end.
pub fn rest_from(bytes: &[u8], place: usize) -> &[u8]
    ensures { result.now ≡ drop place bytes.now }
{
    bytes.split_at(place.min(bytes.len())).1
}

/// What a file has of the `size` bytes from `start` on.
pub fn part_of(file: &[u8], start: usize, size: usize) -> &[u8]
    ensures { result.now ≡ part_of file.now start size }
{
    let rest = rest_from(file, start);
    rest.split_at(size.min(rest.len())).0
}

/// The place of the first byte that equals `mark`, if there is one.
pub fn position_of(bytes: &[u8], mark: u8) -> Option<usize>
    ensures { result ≡ position (λ b. b == mark) bytes.now }
{
    bytes.iter().position(|b| *b == mark)
}

/// The bytes before and after the first `mark`, if there is one.
pub fn cut(bytes: &[u8], mark: u8) -> Option<(&[u8], &[u8])>
    ensures parts { MatchOption result (parts_at mark bytes.now ≡ bytes.now ∷ [])
        (λ cut. parts_at mark bytes.now ≡ cut.0.now ∷ parts_at mark cut.1.now) }
    ensures shorter { IfSome result (λ cut. length cut.1.now < length bytes.now) }
{
    match position_of(bytes, mark) {
        None => None,
        Some(at) => Some((bytes.split_at(at).0, bytes.split_at(at + 1).1)),
    }
}
