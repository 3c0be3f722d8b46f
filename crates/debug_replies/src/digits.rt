//! Digits at the end of a text.

ghost use Rattle.std.specs.Prelude.{◌≡◌, ◌≤◌, ◌+◌, ◌*◌, ◌++◌, flat_map, length};
ghost use Rattle.arrayvec.specs.ArrayVec.{array_vec_len};
ghost use Rattle.command_io.specs.Digits.{hex_of_byte, hex_of_word, status_text};

use arrayvec::ArrayVec;
use flat_machine::Status;

/// Appends bytes for which there is room.
pub(crate) fn push(text: &mut ArrayVec<u8, 1024>, bytes: &[u8])
    requires { array_vec_len text.old + length bytes.now ≤ 1024 }
    ensures items { text.new.items ≡ text.old.items ++ bytes.now }
    ensures len { array_vec_len text.new ≡ array_vec_len text.old + length bytes.now }
{
    let _ = text.try_extend_from_slice(bytes);
}

/// Appends two digits in lower case.
pub(crate) fn push_byte(text: &mut ArrayVec<u8, 1024>, byte: u8)
    requires { array_vec_len text.old + 2 ≤ 1024 }
    ensures items { text.new.items ≡ text.old.items ++ hex_of_byte byte }
    ensures len { array_vec_len text.new ≡ array_vec_len text.old + 2 }
{
    let mut digits = [0u8; 2];
    let _ = hex::encode_to_slice([byte], &mut digits);
    push(text, &digits);
}

/// Appends eight digits in lower case, the highest first.
pub(crate) fn push_word(text: &mut ArrayVec<u8, 1024>, word: u32)
    requires { array_vec_len text.old + 8 ≤ 1024 }
    ensures items { text.new.items ≡ text.old.items ++ hex_of_word word }
    ensures len { array_vec_len text.new ≡ array_vec_len text.old + 8 }
{
    let mut digits = [0u8; 8];
    let _ = hex::encode_to_slice(word.to_be_bytes(), &mut digits);
    push(text, &digits);
}

/// Appends eight digits for each of some words.
pub(crate) fn push_words(text: &mut ArrayVec<u8, 1024>, words: &[u32])
    requires { array_vec_len text.old + 8 * length words.now ≤ 1024 }
    ensures items { text.new.items ≡ text.old.items ++ flat_map hex_of_word words.now }
    ensures len { array_vec_len text.new ≡ array_vec_len text.old + 8 * length words.now }
{
    for word in words {
        push_word(text, *word);
    }
}

/// Appends what a processor is doing: `run`, `halt HH` or `fault N`.
pub(crate) fn push_status(text: &mut ArrayVec<u8, 1024>, status: Status)
    requires { array_vec_len text.old ≡ 0 }
    ensures { text.new.items ≡ text.old.items ++ status_text status }
{
    match status {
        Status::Running => push(text, b"run"),
        Status::Halted(byte) => {
            push(text, b"halt ");
            push_byte(text, byte);
        }
        Status::Faulted(fault) => {
            push(text, b"fault ");
            push(text, &[b'0' + fault.number()]);
        }
    }
}
