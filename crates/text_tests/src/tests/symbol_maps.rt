//! The maps of labels that `asm --symbols` writes. Addresses are worked out by hand.

use asm_commands::{course_symbol_map, symbol_map, text_labels};
use std::test::Fail;
use symbol_table::SymbolTable;
use test_support::assert_same;

/// A text with labels in each section, two of them at one address.
const TEXT: &str = "\
start:  addi a0, x0, 5
loop:   addi a0, a0, -1
        bne a0, x0, loop
end:
stop:   ecall
.shared
count:  .word 0
_flags: .word 0, 1
.local
buffer: .zero 8
.code
after:  ebreak
";

/// Its labels by address, with their sizes, as `nm -S` prints symbols.
const MAP: &str = "\
00010000 00000004 t start
00010004 00000008 t loop
0001000c 00000000 t end
0001000c 00000004 t stop
00010010 00000004 t after
00020000 00000008 d buffer
80000000 00000004 d count
80000004 00000008 d _flags
";

/// Its labels in the order of its lines.
static LABELS: [(&str, u64); 8] = [
    ("start", 0x0001_0000),
    ("loop", 0x0001_0004),
    ("end", 0x0001_000C),
    ("stop", 0x0001_000C),
    ("count", 0x8000_0000),
    ("_flags", 0x8000_0004),
    ("buffer", 0x0002_0000),
    ("after", 0x0001_0010),
];

#[test]
fn labels_of_a_text(rt: HostRuntime) -> Result<(), Fail> {
    let labels = text_labels(rt.alloc(), TEXT.as_bytes())?;
    assert_same!(rt; labels.len(), LABELS.len());
    for (label, (name, address)) in labels.iter().zip(LABELS) {
        assert_same!(rt; str::from_utf8(label.name)?, name);
        assert_same!(rt; label.address, address);
    }
    Ok(())
}

#[test]
fn maps_of_texts(rt: HostRuntime) -> Result<(), Fail> {
    let alloc = rt.alloc();
    assert_same!(rt; symbol_map(alloc, TEXT.as_bytes())?.as_str(), MAP);
    assert_same!(rt; symbol_map(alloc, b"ebreak\n")?.as_str(), "");
    let course = course_symbol_map(alloc, b"start: li a0, 5000\nend: ret\n")?;
    assert_same!(rt; course.as_str(), "00010000 00000008 t start\n00010008 00000004 t end\n");
    Ok(())
}

/// Addresses, and the place of each among the labels. Of two labels at one address the last counts.
static PLACES: [(u32, &str, u32); 11] = [
    (0x0000_FFFC, "", 0),
    (0x0001_0000, "start", 0),
    (0x0001_0008, "loop", 4),
    (0x0001_000C, "stop", 0),
    (0x0001_0013, "after", 3),
    (0x0001_0014, "", 0),
    (0x0002_0007, "buffer", 7),
    (0x0002_0008, "", 0),
    (0x8000_0000, "count", 0),
    (0x8000_0008, "_flags", 4),
    (0x8000_000C, "", 0),
];

#[test]
fn maps_are_read_as_symbols(rt: HostRuntime) -> Result<(), Fail> {
    let map = symbol_map(rt.alloc(), TEXT.as_bytes())?;
    let table = SymbolTable::of_file(rt.alloc(), map.as_bytes())?;
    for (address, name, offset) in PLACES {
        let found = match table.place(address) {
            Some(place) => (place.name, place.offset),
            None => ("", 0),
        };
        assert_same!(rt; found, (name, offset), address);
    }
    Ok(())
}
