//! Sizes.

ghost use Rattle.std.specs.Prelude.{◌≡◌};

use flat_machine::Config;

/// `2^k` processors and 1,024 shared words, with queues of four and four records for each output of a switch.
pub const fn size(k: u8) -> Config
    ensures { result ≡ record { k = k; c = 4; b = 4; r = 1; shared_words = 1024 } }
{
    Config {
        k,
        c: 4,
        b: 4,
        r: 1,
        shared_words: 1024,
    }
}

/// The same with queues of two and one record for each output, which are soon full.
pub const fn tight_size(k: u8) -> Config
    ensures { result ≡ record { k = k; c = 2; b = 1; r = 1; shared_words = 1024 } }
{
    Config {
        k,
        c: 2,
        b: 1,
        r: 1,
        shared_words: 1024,
    }
}
