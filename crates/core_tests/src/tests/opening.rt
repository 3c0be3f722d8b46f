//! The ports and modules with which a machine starts on a small layout, worked out by hand.

ghost use Rattle.std.specs.Prelude.{◌≡◌, ◌≤◌, length};

use elf_image::{Bytes, Layout};
use flat_machine::{Config, Status};
use machine_steps::{new_modules, new_ports};
use std::test::Fail;
use test_support::assert_same;

/// Two processors, which share five words.
const TWO: Config = Config {
    k: 1,
    c: 2,
    b: 0,
    r: 1,
    shared_words: 5,
};

/// Each processor starts at the entry, with the layout's local bytes and its own number.
#[test]
fn ports(rt: HostRuntime) -> Result<(), Fail> {
    let mut local = Bytes::new(rt.alloc());
    local.push(0xA5)?;
    let layout = Layout {
        entry: 0x0001_0008,
        code: Bytes::new(rt.alloc()),
        local,
        shared: Bytes::new(rt.alloc()),
    };
    assert!(rt; layout.local.len() <= 0x1_0000);
    assert!(rt; layout.code.len() <= 0x1_0000);
    assert!(rt; layout.shared.len() <= 20);
    let ports = new_ports(rt.alloc(), TWO, &layout)?;
    assert_same!(rt; ports.len(), 2);
    for (number, port) in ports.iter().enumerate() {
        assert!(rt; !port.is_open(), "{number}");
        let core = port.core().expect(&rt, "no core is away");
        assert_same!(rt; core.pc(), 0x0001_0008, number);
        assert_same!(rt; core.status(), Status::Running, number);
        assert_same!(rt; *core.registers(), [0; 32], number);
        assert_same!(rt; core.setting().number, number as u8, number);
        assert_same!(rt; core.setting().processors, 2, number);
        assert_same!(rt; core.setting().shared_words, 5, number);
        assert_same!(rt; core.byte(0x0002_0000), Ok(0xA5), number);
        assert_same!(rt; core.byte(0x0002_0001), Ok(0), number);
    }
    Ok(())
}

/// Consecutive words go to the modules in turn. The last two bytes are the lower half of a word.
#[test]
fn modules(rt: HostRuntime) -> Result<(), Fail> {
    let bytes = [
        1, 0, 0, 0, 2, 0, 0, 0, 3, 0, 0, 0, 0x44, 0x33, 0x22, 0x11, 0xBB, 0xAA,
    ];
    let modules = new_modules(rt.alloc(), TWO, &bytes)?;
    assert_same!(rt; modules.len(), 2);
    for (number, place, word) in [
        (0, 0, 1),
        (1, 0, 2),
        (0, 1, 3),
        (1, 1, 0x1122_3344),
        (0, 2, 0xAABB),
    ] {
        let found = match modules.get(number) {
            Some(module) => module.word(place),
            None => None,
        };
        assert_same!(rt; found, Some(word), (&number, &place));
    }
    Ok(())
}
