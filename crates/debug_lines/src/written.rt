//! Bytes written in digits.

ghost use Rattle.std.specs.Prelude.{◌≡◌, ◌≤◌, ◌*◌, ◌<◌, length};
ghost use Rattle.debug_lines.specs.Numbers.{bytes_of};

use arrayvec::ArrayVec;
use std::marker::Model;

/// The most bytes whose digits fit into a line.
const MAX_BYTES: usize = 512;

/// The bytes that a line gives in digits.
#[derive(Debug, Drop)]
pub struct Written {
    bytes: ArrayVec<u8, 512>,
}

impl Model for Written {
    ghost use Rattle.std.specs.Prelude.{List, ℕ};

    ghost Value = { List ℕ };

    ghost view = { λ w. w.bytes.items };
}

impl Written {
    /// The bytes, in order.
    pub fn bytes(&self) -> &[u8]
        ensures bytes { result.now ≡ self.now }
        ensures few { length result.now ≤ 512 }
    {
        self.bytes.as_slice()
    }

    /// The bytes read from digits, two for each byte.
    #[tactic(auto, unfolding(crate::specs::Numbers::bytes_of))]
    pub(crate) fn read(digits: &[u8]) -> Option<Written>
        requires { length digits.now ≤ 1024 }
        ensures { result ≡ bytes_of digits.now }
    {
        if digits.is_empty() {
            return None;
        }
        let mut buffer = [0u8; MAX_BYTES];
        let room = &mut buffer[..digits.len() / 2];
        hex::decode_to_slice(digits, room).ok()?;
        let mut bytes = ArrayVec::new();
        let _ = bytes.try_extend_from_slice(room);
        Some(Written { bytes })
    }
}
