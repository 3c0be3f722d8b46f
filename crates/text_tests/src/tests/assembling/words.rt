//! The words and bytes to which texts assemble.

use super::{compare, compare_all, compare_each};
use std::alloc::{AllocError, Global};
use test_support::{HUNDRED_ADDS, assert_same};

#[test]
fn one_instruction_is_one_word(rt: HostRuntime) {
    compare_each(&rt, &INSTRUCTIONS);
}

static INSTRUCTIONS: [(&str, &str); 19] = [
    ("addi x1, x0, 1", "00100093"),
    ("amoadd.w a0, a1, (a2)", "00b6252f"),
    ("amoadd.w.aqrl a0, a1, (a2)", "06b6252f"),
    ("amoadd.w.aq a0, a1, (a2)", "04b6252f"),
    ("amoadd.w.rl a0, a1, (a2)", "02b6252f"),
    ("jal ra, 2", "002000ef"),
    ("fence x0, x0, 255", "0ff0000f"),
    ("sra x1, x2, x3", "403150b3"),
    ("mul x1, x2, x3", "023100b3"),
    ("divu a0, a1, a2", "02c5d533"),
    ("jalr x1, 4(x2)", "004100e7"),
    ("bne x6, x0, -8", "fe031ce3"),
    ("lui x5, 0x80000", "800002b7"),
    ("srai x1, x2, 3", "40315093"),
    ("lw x9, 0(x5)", "0002a483"),
    ("sw x5, -4(x2)", "fe512e23"),
    ("jal x0, -4", "ffdff06f"),
    ("ecall", "00000073"),
    ("ebreak", "00100073"),
];

/// Blanks and tabs wherever they are allowed, comments, lines with only a label, and no last LF.
#[test]
fn blanks_and_comments_change_nothing(rt: HostRuntime) {
    compare_all(&rt, &ONE_ADDI, "00100093");
    compare_each(&rt, &BLANKS);
}

static ONE_ADDI: [&str; 6] = [
    "addi x1, x0, 1\n",
    " \taddi\tx1 , x0\t,\t1 \t# one",
    "addi x1,x0,1#one",
    "# nothing\n\n\t\nhere:\n there :addi ra, zero, 0x1\n# end: addi",
    "_b1: addi x1, x0, 1",
    "addi: addi x1, x0, 00000000000000000001",
];

static BLANKS: [(&str, &str); 2] = [
    ("lw x6 , %lo ( v ) ( x5 )\n.shared\nv :", "0002a303"),
    ("amoadd.w a0 ,a1,\t( a2 )", "00b6252f"),
];

#[test]
fn sections_have_their_words_and_bytes(rt: HostRuntime) {
    compare_each(&rt, &SECTIONS);
}

static SECTIONS: [(&str, &str); 4] = [
    // A high part and a low part make an address.
    (
        ".shared\n.zero 4092\nv: .word 7\n.code\nlui x5, %hi(v)\nlw x6, %lo(v)(x5)",
        "800012b7 ffc2a303 shared 00*4092 07 00*3",
    ),
    // Each section continues where it ended.
    (
        "\
.shared
.byte 1
.local
.byte 2, 3
.code
ecall
.shared
.byte -1 , 255,0x7F
.local
here: .zero 1
.byte 4
.code
.word here, -1, 4294967295",
        "00000073 00020002 ffffffff*2 local 02 03 00 04 shared 01 ff*2 7f",
    ),
    // The program by which every processor adds to one shared word.
    (
        HUNDRED_ADDS,
        "800002b7 06400313 00100393 0072a42f fff30313 fe031ce3 0002a483 06400593 00b4ee63 00100893 04100513 00000073 \
         00000893 00000513 00000073 00100073",
    ),
    // Sections of the greatest length.
    (
        ".zero 65536\n.local\n.zero 65536\n.shared\n.zero 786432\nend:",
        "00000000*16384 local 00*65536 shared 00*786432",
    ),
];

#[test]
fn the_entry_is_start_in_code(rt: HostRuntime) {
    compare_each(&rt, &ENTRIES);
}

static ENTRIES: [(&str, &str); 9] = [
    ("", ""),
    ("\n\n", ""),
    ("ecall\nstart: ecall", "00000073*2 entry 00010004"),
    ("ecall\n.byte 1\nstart:", "00000073 01"),
    (".zero 65536\nstart:", "00000000*16384 entry 00020000"),
    (".local\nstart:", ""),
    (".shared\n.zero 4\nstart:", "shared 00*4"),
    ("ecall\nStart: ecall", "00000073*2"),
    ("ecall\nstart: .local", "00000073 entry 00010004"),
];

/// A text of 1 MiB.
fn large_text(alloc: Global) -> Result<String, AllocError> {
    let mut text = String::with_capacity(alloc, 1_048_576)?;
    for _ in 0..16_384 {
        text.push_str("addi x1, x1, 1 # one more, with a comment up to 64 bytes a line\n")?;
    }
    Ok(text)
}

#[test]
fn large_texts(rt: HostRuntime) {
    let text = large_text(rt.alloc()).expect(&rt, "memory");
    assert_same!(rt; text.len(), 1_048_576);
    compare(&rt, text.as_str(), "00108093*16384");
}
