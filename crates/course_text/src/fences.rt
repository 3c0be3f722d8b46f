//! Sets of a fence.

ghost use Rattle.std.specs.Prelude.{◌≡◌, ◌≤◌, ◌<◌, IfSome};
ghost use Rattle.course_text.specs.Forms.{bit_of, set_of, fence_bits};
ghost use Rattle.course_text.specs.Views.{nows};

/// The bit of a letter.
fn bit_of(letter: u8) -> Option<u32>
    ensures value { result ≡ bit_of letter }
    ensures small { IfSome result (λ bit. bit < 16) }
{
    match letter {
        b'i' => Some(8),
        b'o' => Some(4),
        b'r' => Some(2),
        b'w' => Some(1),
        _ => None,
    }
}

/// The bits of a set: at least one of the letters `i`, `o`, `r`, `w`, in this order.
#[tactic(auto, unfolding(crate::specs::Forms::set_of))]
fn set_of(letters: &[u8]) -> Option<u32>
    ensures value { result ≡ set_of letters.now }
    ensures small { IfSome result (λ bits. bits ≤ 256) }
{
    if letters.is_empty() {
        return None;
    }
    let mut last = 16;
    let mut bits = 0;
    for letter in letters {
        let bit = bit_of(*letter)?;
        if bit >= last {
            return None;
        }
        last = bit;
        bits += bit;
    }
    Some(bits)
}

/// The bits of a fence with these words.
pub fn fence_bits(words: &[&[u8]]) -> Option<u32>
    ensures { result ≡ fence_bits (nows words.now) }
{
    match words {
        [_] => Some(255),
        [_, predecessor, successor] => {
            let before = set_of(predecessor)?;
            let after = set_of(successor)?;
            Some(16 * before + after)
        }
        _ => None,
    }
}
