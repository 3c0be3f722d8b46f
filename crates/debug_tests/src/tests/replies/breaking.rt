//! Breaks at the limits of code.

use debug_replies::Breaks;
use test_support::{assert_same, lend};

/// Addresses, each with whether it is that of a code word: in code and divisible by 4.
static ADDRESSES: [(u32, bool); 14] = [
    (0, false),
    (0x0000_FFFC, false),
    (0x0000_FFFF, false),
    (0x0001_0000, true),
    (0x0001_0001, false),
    (0x0001_0002, false),
    (0x0001_0003, false),
    (0x0001_0004, true),
    (0x0001_FFFC, true),
    (0x0001_FFFF, false),
    (0x0002_0000, false),
    (0x8000_0000, false),
    (0x8001_0000, false),
    (0xFFFF_FFFC, false),
];

/// A break can be set and cleared only at a code word, whether there is one already or not.
#[test]
fn breaks_at_the_limits(rt: HostRuntime) {
    for (address, is_code_word) in ADDRESSES.iter().copied() {
        lend(Breaks::new(), |breaks| {
            assert!(rt; !breaks.contains(address), "{address:x}");
            assert_same!(rt; breaks.clear(address), is_code_word, address);
            for _ in 0..2 {
                assert_same!(rt; breaks.set(address), is_code_word, address);
                assert_same!(rt; breaks.contains(address), is_code_word, address);
            }
            assert!(rt; !breaks.contains(0x0001_0008));
            assert_same!(rt; breaks.clear(address), is_code_word, address);
            assert!(rt; !breaks.contains(address), "{address:x}");
        });
    }
}

/// To clear one break leaves the others.
#[test]
fn breaks_apart(rt: HostRuntime) {
    lend(Breaks::new(), |breaks| {
        breaks.set(0x0001_0004);
        breaks.set(0x0001_0010);
        breaks.set(0x0001_FFFC);
        breaks.clear(0x0001_0010);
        for word in 0..16_384 {
            let address = 0x0001_0000 + 4 * word;
            assert_same!(rt; breaks.contains(address), word == 1 || word == 16_383, address);
        }
    });
}
