//! The breaks of a session.

ghost use Rattle.std.specs.Prelude.{◌≡◌, ◌==◌, ◌&&◌, ◌<◌, ℕ, true, false, IfSome, is_some, if◌then◌else◌};
ghost use Rattle.debug_replies.specs.Breaking.{is_break, is_code_word, with_flag, word_place};

use flat_machine::{CODE_START, REGION_BYTES};
use std::marker::Model;

/// The number of code words.
const CODE_WORDS: usize = 16_384;

/// The code words before which a session stops: a flag for each, seen as a list in the order of their addresses.
/// It allocates no memory.
#[derive(Drop)]
pub struct Breaks {
    flags: [bool; 16_384],
}

impl Model for Breaks {
    ghost use Rattle.std.specs.Prelude.{List, Bool, ◌≡◌, length};

    ghost Value = { List Bool };

    ghost view = { λ b. b.flags };

    ghost invariant = { λ b. length b.flags ≡ 16384 };
}

impl Breaks {
    /// No break.
    pub fn new() -> Self
        ensures { (a : ℕ) → is_break result a ≡ false }
    {
        Breaks {
            flags: [false; CODE_WORDS],
        }
    }

    /// Sets a break, which may be set already. Returns false and changes nothing if the address is not that of a code
    /// word: outside code, or not divisible by 4.
    pub fn set(&mut self, address: u32) -> bool
        ensures there { result ≡ is_code_word address }
        ensures flags { self.new ≡ with_flag self.old address true }
        ensures breaks { (a : ℕ) →
            is_break self.new a ≡ (if a == address && is_code_word a then true else is_break self.old a) }
    {
        self.write(address, true)
    }

    /// Clears a break, which need not be set. Returns false and changes nothing if the address is not that of a code
    /// word: outside code, or not divisible by 4.
    pub fn clear(&mut self, address: u32) -> bool
        ensures there { result ≡ is_code_word address }
        ensures flags { self.new ≡ with_flag self.old address false }
        ensures breaks { (a : ℕ) → is_break self.new a ≡ (if a == address then false else is_break self.old a) }
    {
        self.write(address, false)
    }

    /// Whether a session stops before the instruction at an address.
    #[tactic(auto, unfolding(crate::specs::Breaking::is_break))]
    pub fn contains(&self, address: u32) -> bool
        ensures { result ≡ is_break self.now address }
    {
        match word_place(address) {
            Some(place) => self.flags[place],
            None => false,
        }
    }

    /// Writes the flag of the code word at an address, and returns whether there is one.
    #[tactic(auto, unfolding(crate::specs::Breaking::with_flag))]
    fn write(&mut self, address: u32, flag: bool) -> bool
        ensures there { result ≡ is_code_word address }
        ensures flags { self.new ≡ with_flag self.old address flag }
        ensures breaks { (a : ℕ) →
            is_break self.new a ≡ (if a == address && is_code_word a then flag else is_break self.old a) }
    {
        match word_place(address) {
            Some(place) => {
                self.flags[place] = flag;
                true
            }
            None => false,
        }
    }
}

/// Whether an address is that of a code word.
pub(crate) fn is_code_word(address: u32) -> bool
    ensures { result ≡ is_code_word address }
{
    address / REGION_BYTES == CODE_START / REGION_BYTES && address % 4 == 0
}

/// The place of the code word at an address, if there is one.
#[tactic(auto, unfolding(crate::specs::Breaking::word_place))]
fn word_place(address: u32) -> Option<usize>
    ensures there { result ≡ word_place address }
    ensures code { is_some result ≡ is_code_word address }
    ensures within { IfSome result (λ place. place < 16384) }
{
    if is_code_word(address) {
        Some((address % REGION_BYTES / 4) as usize)
    } else {
        None
    }
}
