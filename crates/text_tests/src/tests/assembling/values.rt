//! Numbers at the ends of their ranges, label values and register names.

use super::{compare, compare_all, compare_each};

#[test]
fn numbers_at_the_ends_of_their_ranges(rt: HostRuntime) {
    compare_each(&rt, &AT_THE_ENDS);
}

static AT_THE_ENDS: [(&str, &str); 21] = [
    ("addi x0, x0, -2048", "80000013"),
    ("addi x0, x0, 2047", "7ff00013"),
    ("addi x0, x0, 0x7ff", "7ff00013"),
    ("addi x0, x0, 0x7FF", "7ff00013"),
    ("lw x0, -2048(x0)", "80002003"),
    ("sw x0, 2047(x0)", "7e002fa3"),
    ("sw x0, -2048(x0)", "80002023"),
    ("lui x0, 1048575", "fffff037"),
    ("lui x0, 0", "00000037"),
    ("slli x0, x0, 31", "01f01013"),
    ("slli x0, x0, 0", "00001013"),
    ("fence x0, x0, 4095", "fff0000f"),
    ("beq x0, x0, -4096", "80000063"),
    ("beq x0, x0, 4094", "7e000fe3"),
    ("jal x0, -1048576", "8000006f"),
    ("jal x0, 1048574", "7ffff06f"),
    (".word -2147483648", "80000000"),
    (".word 4294967295", "ffffffff"),
    (".word 0xffffFFFF", "ffffffff"),
    (".word -0", "00000000"),
    (".byte -128, 255, 0x00, 0127", "7f00ff80"),
];

#[test]
fn numbers_out_of_range(rt: HostRuntime) {
    compare_all(&rt, &OUT_OF_RANGE, "A3 line 1");
}

static OUT_OF_RANGE: [&str; 25] = [
    "addi x0, x0, -2049",
    "addi x0, x0, 2048",
    "addi x0, x0, 0x800",
    "lw x0, 2048(x0)",
    "sw x0, -2049(x0)",
    "lui x0, 1048576",
    "lui x0, -1",
    "slli x0, x0, 32",
    "slli x0, x0, -1",
    "fence x0, x0, 4096",
    "fence x0, x0, -1",
    "beq x0, x0, -4098",
    "beq x0, x0, 4096",
    "beq x0, x0, 1",
    "beq x0, x0, -3",
    "jal x0, -1048578",
    "jal x0, 1048576",
    "jal x0, 3",
    ".word -2147483649",
    ".word 4294967296",
    ".byte -129",
    ".byte 256",
    ".zero -1",
    ".zero 1048577",
    ".zero 123456789012345678901234567890",
];

/// The distance of a branch or a jump is counted from its own address. Targets are at each end of the range.
#[test]
fn targets_are_counted_from_the_instruction(rt: HostRuntime) {
    compare_each(&rt, &TARGETS);
}

static TARGETS: [(&str, &str); 9] = [
    ("here: beq x0, x0, here", "00000063"),
    (
        "ecall\nbeq x0, x0, next\nnext: ecall",
        "00000073 00000263 00000073",
    ),
    (
        "back: ecall\necall\nbne x6, x0, back",
        "00000073*2 fe031ce3",
    ),
    (
        "back: .zero 4096\nbeq x0, x0, back",
        "00000000*1024 80000063",
    ),
    (
        "beq x0, x0, far\n.zero 4090\nfar: .zero 2",
        "7e000fe3 00000000*1023",
    ),
    ("jal x0, far\n.zero 65532\nfar:", "0001006f 00000000*16383"),
    ("beq x0, x0, far\n.zero 4092\nfar:", "A3 line 1"),
    ("beq x0, x0, odd\n.byte 1\nodd: .zero 3", "A3 line 1"),
    ("jal x0, other\n.shared\nother:", "A3 line 1"),
];

/// `%hi` is one more if `%lo` is negative, so that both together make the address.
#[test]
fn parts_of_a_label(rt: HostRuntime) {
    for (zeros, code) in &PARTS {
        let text = format!(in rt.alloc();
            "lui x5, %hi(v)\naddi x5, x5, %lo(v)\nsb x5, %lo(v)(x5)\nauipc x1, %hi(v)\n.shared\n.zero {zeros}\nv:"
        ).expect(&rt, "memory");
        compare(&rt, text.as_str(), code);
    }
}

/// The number of bytes before a label, and the code with its parts.
static PARTS: [(u32, &str); 5] = [
    (0, "800002b7 00028293 00528023 80000097"),
    (2047, "800002b7 7ff28293 7e528fa3 80000097 shared 00*2047"),
    (2048, "800012b7 80028293 80528023 80001097 shared 00*2048"),
    (4095, "800012b7 fff28293 fe528fa3 80001097 shared 00*4095"),
    (4096, "800012b7 00028293 00528023 80001097 shared 00*4096"),
];

/// A label has its address in the section that is current before its line, even if the line changes the section.
#[test]
fn labels_have_their_sections_addresses(rt: HostRuntime) {
    compare_each(&rt, &ADDRESSES);
}

static ADDRESSES: [(&str, &str); 1] = [(
    ".word a, b, c, d, addi\na: .local\n.byte 9\nb: .shared\n.zero 8\nc:\n.code\nd: ecall\naddi:",
    "00010014 00020001 80000008 00010014 00010018 00000073 local 09 shared 00*8",
)];

#[test]
fn registers_by_number_and_by_use(rt: HostRuntime) {
    for number in 0..32 {
        let name = USES[number];
        let text = format!(in rt.alloc(); "add {name}, x{number}, {name}").expect(&rt, "memory");
        // The number is in bits 7 to 11, 15 to 19 and 20 to 24.
        let word = 0x33 + number * 0x0010_8080;
        let wanted = format!(in rt.alloc(); "{word:08x}").expect(&rt, "memory");
        compare(&rt, text.as_str(), wanted.as_str());
    }
}

/// The ABI names of registers, from `x0` on.
static USES: [&str; 32] = [
    "zero", "ra", "sp", "gp", "tp", "t0", "t1", "t2", "s0", "s1", "a0", "a1", "a2", "a3", "a4",
    "a5", "a6", "a7", "s2", "s3", "s4", "s5", "s6", "s7", "s8", "s9", "s10", "s11", "t3", "t4",
    "t5", "t6",
];
