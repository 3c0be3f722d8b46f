//! Symbol tables made by hand: of an ELF file, with its fields changed in turn, and of lines as `nm` prints them.

use std::alloc::AllocGlobal;
use std::process::Abort;
use symbol_table::SymbolTable;
use test_support::assert_same;

/// An address, with the name and the offset of its place; without a place, with an empty name.
type Row = (u32, &'static str, u32);

/// The number of bytes of `FILE`.
const FILE_BYTES: usize = 445;

/// An ELF file: its header, fourteen symbols from offset 52 on, their names from 276 on, and three section headers from
/// 325 on: none, the symbol table and the string table. The symbols, with address, size, type and section:
///
/// | Symbol | Address | Size | Type | Section |
/// |---|---|---|---|---|
/// | no name | 0 | 0 | none | none |
/// | `start` | 0x00010000 | 4 | function | 1 |
/// | `loop` | 0x00010008 | 0 | none | 1 |
/// | `$x` | 0x0001000c | 0 | none | 1 |
/// | `.L1` | 0x00010010 | 0 | none | 1 |
/// | `count` | 0x80000000 | 4 | object | 2 |
/// | `sum` | 0x80000000 | 4 | object | 2 |
/// | `ext` | 0 | 0 | none | none |
/// | `abs` | 0x00010014 | 0 | none | absolute |
/// | `f.c` | 0x00010018 | 0 | file | 1 |
/// | no name | 0x0001001c | 0 | section | 1 |
/// | no name | 0x0001001c | 0 | none | 1 |
/// | `a b` | 0x0001001c | 0 | none | 1 |
/// | `end` | 0x00010024 | 0 | none | 1 |
static FILE: [u8; FILE_BYTES] = [
    0x7F, 0x45, 0x4C, 0x46, 1, 1, 1, 0, 0, 0, 0, 0, 0, 0, 0, 0, 2, 0, 0xF3, 0, 1, 0, 0, 0, 0, 0, 1,
    0, 0, 0, 0, 0, 0x45, 1, 0, 0, 0, 0, 0, 0, 0x34, 0, 0x20, 0, 0, 0, 0x28, 0, 3, 0, 0, 0, 0, 0, 0,
    0, 0, 0, 0, 0, 0, 0, 0, 0, 0, 0, 0, 0, 1, 0, 0, 0, 0, 0, 1, 0, 4, 0, 0, 0, 0x12, 0, 1, 0, 7, 0,
    0, 0, 8, 0, 1, 0, 0, 0, 0, 0, 0, 0, 1, 0, 0x0C, 0, 0, 0, 0x0C, 0, 1, 0, 0, 0, 0, 0, 0, 0, 1, 0,
    0x0F, 0, 0, 0, 0x10, 0, 1, 0, 0, 0, 0, 0, 0, 0, 1, 0, 0x13, 0, 0, 0, 0, 0, 0, 0x80, 4, 0, 0, 0,
    0x11, 0, 2, 0, 0x19, 0, 0, 0, 0, 0, 0, 0x80, 4, 0, 0, 0, 0x11, 0, 2, 0, 0x1D, 0, 0, 0, 0, 0, 0,
    0, 0, 0, 0, 0, 0x10, 0, 0, 0, 0x21, 0, 0, 0, 0x14, 0, 1, 0, 0, 0, 0, 0, 0x10, 0, 0xF1, 0xFF,
    0x25, 0, 0, 0, 0x18, 0, 1, 0, 0, 0, 0, 0, 4, 0, 1, 0, 0, 0, 0, 0, 0x1C, 0, 1, 0, 0, 0, 0, 0, 3,
    0, 1, 0, 0, 0, 0, 0, 0x1C, 0, 1, 0, 0, 0, 0, 0, 0, 0, 1, 0, 0x29, 0, 0, 0, 0x1C, 0, 1, 0, 0, 0,
    0, 0, 0, 0, 1, 0, 0x2D, 0, 0, 0, 0x24, 0, 1, 0, 0, 0, 0, 0, 0x10, 0, 1, 0, 0, 0x73, 0x74, 0x61,
    0x72, 0x74, 0, 0x6C, 0x6F, 0x6F, 0x70, 0, 0x24, 0x78, 0, 0x2E, 0x4C, 0x31, 0, 0x63, 0x6F, 0x75,
    0x6E, 0x74, 0, 0x73, 0x75, 0x6D, 0, 0x65, 0x78, 0x74, 0, 0x61, 0x62, 0x73, 0, 0x66, 0x2E, 0x63,
    0, 0x61, 0x20, 0x62, 0, 0x65, 0x6E, 0x64, 0, 0, 0, 0, 0, 0, 0, 0, 0, 0, 0, 0, 0, 0, 0, 0, 0, 0,
    0, 0, 0, 0, 0, 0, 0, 0, 0, 0, 0, 0, 0, 0, 0, 0, 0, 0, 0, 0, 0, 0, 0, 0, 0, 0, 0, 2, 0, 0, 0, 0,
    0, 0, 0, 0, 0, 0, 0, 0x34, 0, 0, 0, 0xE0, 0, 0, 0, 2, 0, 0, 0, 0, 0, 0, 0, 4, 0, 0, 0, 0x10, 0,
    0, 0, 0, 0, 0, 0, 3, 0, 0, 0, 0, 0, 0, 0, 0, 0, 0, 0, 0x14, 1, 0, 0, 0x31, 0, 0, 0, 0, 0, 0, 0,
    0, 0, 0, 0, 1, 0, 0, 0, 0, 0, 0, 0,
];

/// The places of addresses among the symbols of `FILE`: `start` has 4 bytes, `loop` and `end` have no size, and of
/// `count` and `sum`, both of 4 bytes at one address, the last counts.
static PLACES: [Row; 14] = [
    (0, "", 0),
    (0x0000_FFFF, "", 0),
    (0x0001_0000, "start", 0),
    (0x0001_0003, "start", 3),
    (0x0001_0004, "", 0),
    (0x0001_0008, "loop", 0),
    (0x0001_0010, "loop", 8),
    (0x0001_0023, "loop", 0x1B),
    (0x0001_0024, "end", 0),
    (0x7FFF_FFFF, "end", 0x7FFE_FFDB),
    (0x8000_0000, "sum", 0),
    (0x8000_0003, "sum", 3),
    (0x8000_0004, "", 0),
    (0xFFFF_FFFF, "", 0),
];

/// Compares the place of an address among the symbols of a file.
fn compare(rt: &(impl Abort + AllocGlobal), file: &[u8], row: &Row) {
    let (address, name, offset) = *row;
    let table = SymbolTable::of_file(rt.alloc(), file).expect(rt, "memory");
    let found = match table.place(address) {
        Some(place) => (place.name, place.offset),
        None => ("", 0),
    };
    assert_same!(rt; found, (name, offset), address);
}

#[test]
fn symbols_of_an_elf_file(rt: HostRuntime) {
    for row in &PLACES {
        compare(&rt, &FILE, row);
    }
}

/// The file with one byte changed.
fn changed(place: usize, byte: u8) -> [u8; FILE_BYTES] {
    let mut file = FILE;
    if place < FILE_BYTES {
        file[place] = byte;
    }
    file
}

/// The offset of a byte, its new value, and what the change makes of a place.
static CHANGES: [(usize, u8, Row); 27] = [
    // The class, the order of bytes, and the last byte of the magic number.
    (4, 2, (0x0001_0000, "", 0)),
    (5, 2, (0x0001_0000, "", 0)),
    (3, b'f', (0x0001_0000, "", 0)),
    // e_shoff, past the end of the file and at another place in it; e_shentsize.
    (34, 1, (0x0001_0000, "", 0)),
    (32, 0, (0x0001_0000, "", 0)),
    (46, 41, (0x0001_0000, "", 0)),
    // e_shnum, without the symbol table, without the string table, and with headers past the end of the file.
    (48, 1, (0x0001_0000, "", 0)),
    (48, 2, (0x0001_0000, "", 0)),
    (48, 200, (0x0001_0000, "start", 0)),
    // Of the symbol table: sh_type, also of an earlier section; sh_offset, sh_size, sh_link, sh_entsize.
    (369, 11, (0x0001_0000, "", 0)),
    (329, 2, (0x0001_0000, "", 0)),
    (383, 1, (0x0001_0000, "", 0)),
    (385, 47, (0x0001_0008, "", 0)),
    (385, 48, (0x0001_0008, "loop", 0)),
    (388, 1, (0x0001_0024, "end", 0)),
    (389, 3, (0x0001_0000, "", 0)),
    (401, 0, (0x0001_0000, "", 0)),
    (401, 24, (0x0001_0000, "", 0)),
    // Of the string table: sh_offset, and sh_size without and with the zero after the last name.
    (423, 1, (0x0001_0000, "", 0)),
    (425, 48, (0x0001_0024, "loop", 0x1C)),
    (425, 49, (0x0001_0024, "end", 0)),
    // Of `start`: st_name, past the end of the strings and inside them; st_info, of a local and of a common symbol.
    (69, 1, (0x0001_0000, "", 0)),
    (68, 3, (0x0001_0000, "art", 0)),
    (80, 0x01, (0x0001_0000, "start", 0)),
    (80, 0x15, (0x0001_0000, "", 0)),
    // st_shndx, of an index that is reserved and of one that is not.
    (83, 0xFF, (0x0001_0000, "", 0)),
    (83, 0xFE, (0x0001_0000, "start", 0)),
];

#[test]
fn changed_elf_files(rt: HostRuntime) {
    for (place, byte, row) in &CHANGES {
        compare(&rt, &changed(*place, *byte), row);
    }
}

/// The number of bytes of a file that is cut short. Without its last byte the string table has no header.
static CUTS: [usize; 8] = [0, 4, 6, 51, 52, 276, 404, 444];

#[test]
fn elf_files_cut_short(rt: HostRuntime) {
    for count in &CUTS {
        let count = (*count).min(FILE_BYTES);
        compare(&rt, &FILE[..count], &(0x0001_0000, "", 0));
    }
}

/// A text, and a place among its symbols.
static TEXTS: [(&str, Row); 34] = [
    ("00010000 T start\n", (0x0001_0004, "start", 4)),
    ("00010000 t start", (0xFFFF_FFFF, "start", 0xFFFE_FFFF)),
    ("00010000 T start\n", (0x0000_FFFF, "", 0)),
    // Sizes.
    ("00010000 00000008 T start\n", (0x0001_0007, "start", 7)),
    ("00010000 00000008 T start\n", (0x0001_0008, "", 0)),
    ("00010000 00000000 T start\n", (0x0001_0008, "start", 8)),
    ("10000 8 T start\n", (0x0001_0007, "start", 7)),
    // Numbers of 1 to 8 and of 16 digits, in both cases.
    ("0 T a", (1, "a", 1)),
    ("abcdef T a", (0x00AB_CDEF, "a", 0)),
    ("ABCDEF T a", (0x00AB_CDEF, "a", 0)),
    ("0000000080000000 D a", (0x8000_0001, "a", 1)),
    ("0000000100000000 D a", (0xFFFF_FFFF, "", 0)),
    ("FFFFFFFF D a", (0xFFFF_FFFF, "a", 0)),
    ("000010000 T a", (0x0001_0000, "", 0)),
    ("000000000010000 T a", (0x0001_0000, "", 0)),
    ("00000000000010000 T a", (0x0001_0000, "", 0)),
    ("0x10000 T a", (0x0001_0000, "", 0)),
    ("+10000 T a", (0x0001_0000, "", 0)),
    ("1000g T a", (0x0001_0000, "", 0)),
    // Names.
    ("10000 T .text", (0x0001_0000, ".text", 0)),
    ("10000 T __x$~", (0x0001_0000, "__x$~", 0)),
    ("10000 T $x", (0x0001_0000, "", 0)),
    ("10000 T .L1", (0x0001_0000, "", 0)),
    ("10000 T a b", (0x0001_0000, "", 0)),
    ("10000 T a\r\n", (0x0001_0000, "", 0)),
    ("10000 T \u{E9}", (0x0001_0000, "", 0)),
    ("10000 T ", (0x0001_0000, "", 0)),
    ("10000 T", (0x0001_0000, "", 0)),
    // Other lines.
    ("         U a\n", (0, "", 0)),
    ("10000  T a", (0x0001_0000, "", 0)),
    ("10000 TT a", (0x0001_0000, "", 0)),
    ("10000 ? a", (0x0001_0000, "", 0)),
    ("start T 10000 8", (0x0001_0000, "", 0)),
    ("", (0, "", 0)),
];

/// Several lines: not in the order of their addresses, two of one address, and some without a symbol.
static LINES: &str = "80000000 00000004 D count
         U ext
00010008 t loop

00010000 T _start
00010000 T start
main.o:
00010004 T $x
";

/// The places among the symbols of `LINES`.
static LINE_PLACES: [Row; 6] = [
    (0x0000_FFFF, "", 0),
    (0x0001_0000, "start", 0),
    (0x0001_0007, "start", 7),
    (0x0001_0008, "loop", 0),
    (0x8000_0003, "count", 3),
    (0x8000_0004, "", 0),
];

#[test]
fn symbols_of_lines(rt: HostRuntime) {
    for (text, row) in &TEXTS {
        compare(&rt, text.as_bytes(), row);
    }
    for row in &LINE_PLACES {
        compare(&rt, LINES.as_bytes(), row);
    }
}

/// Lines with two symbols of one name, the higher address first.
static NAMES: &str = "00010010 t loop
80000000 00000004 D count
00010008 t loop
00010000 T start
00010004 T $x
";

/// Names, with their addresses.
static ADDRESSES: [(&str, Option<u32>); 7] = [
    ("start", Some(0x0001_0000)),
    ("loop", Some(0x0001_0008)),
    ("count", Some(0x8000_0000)),
    ("Loop", None),
    ("loo", None),
    ("$x", None),
    ("", None),
];

#[test]
fn addresses_of_names(rt: HostRuntime) {
    let table = SymbolTable::of_file(rt.alloc(), NAMES.as_bytes()).expect(&rt, "memory");
    for (name, address) in &ADDRESSES {
        assert_same!(rt; table.address(name), *address, *name);
    }
    let of_an_elf_file = SymbolTable::of_file(rt.alloc(), &FILE).expect(&rt, "memory");
    assert_same!(rt; of_an_elf_file.address("end"), Some(0x0001_0024));
}
