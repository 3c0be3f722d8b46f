//! Registers by name.

ghost use Rattle.std.specs.Prelude.{◌≡◌, ◌≤◌, length};
ghost use Rattle.asm_lines.specs.Names.{register_of, x_name, use_name};

use rv_table::Register;

const NUMBERS: [u8; 32] = [
    0, 1, 2, 3, 4, 5, 6, 7, 8, 9, 10, 11, 12, 13, 14, 15, 16, 17, 18, 19, 20, 21, 22, 23, 24, 25,
    26, 27, 28, 29, 30, 31,
];

/// The table of register names for both directions: number, name by number, name by use (manual,
/// "RISC-V Assembly Programmer's Handbook"). It passes each row to the macro `$form`.
macro_rules! registers {
    ($form:ident $subject:expr) => {
        $form! {
            [$subject]
            0 "x0" "zero",
            1 "x1" "ra",
            2 "x2" "sp",
            3 "x3" "gp",
            4 "x4" "tp",
            5 "x5" "t0",
            6 "x6" "t1",
            7 "x7" "t2",
            8 "x8" "s0",
            9 "x9" "s1",
            10 "x10" "a0",
            11 "x11" "a1",
            12 "x12" "a2",
            13 "x13" "a3",
            14 "x14" "a4",
            15 "x15" "a5",
            16 "x16" "a6",
            17 "x17" "a7",
            18 "x18" "s2",
            19 "x19" "s3",
            20 "x20" "s4",
            21 "x21" "s5",
            22 "x22" "s6",
            23 "x23" "s7",
            24 "x24" "s8",
            25 "x25" "s9",
            26 "x26" "s10",
            27 "x27" "s11",
            28 "x28" "t3",
            29 "x29" "t4",
            30 "x30" "t5",
            31 "x31" "t6",
        }
    };
}

macro_rules! first_name {
    ([$number:expr] $($n:literal $x:literal $usage:literal,)*) => {
        match $number { $($n => $x,)* _ => "" }
    };
}

macro_rules! second_name {
    ([$number:expr] $($n:literal $x:literal $usage:literal,)*) => {
        match $number { $($n => $usage,)* _ => "" }
    };
}

fn name_by_number(number: u8) -> &'static str
    ensures name { result.now ≡ x_name number }
    ensures short { length result.now ≤ 3 }
{
    registers!(first_name number)
}

fn name_by_use(number: u8) -> &'static str
    ensures { result.now ≡ use_name number }
{
    registers!(second_name number)
}

/// The name of a register by number: `x0` to `x31`.
pub fn x_name(register: Register) -> &'static str
    ensures name { result.now ≡ x_name register }
    ensures short { length result.now ≤ 3 }
{
    name_by_number(register.number())
}

#[tactic(auto, unfolding(crate::specs::Names::register_of))]
fn number_of(word: &[u8]) -> Option<u8>
    ensures { result ≡ register_of word.now }
{
    NUMBERS.iter().copied().find(|number| name_by_number(*number).as_bytes() == word
        || name_by_use(*number).as_bytes() == word)
}

/// The register that is written as `word`, by its number or its use.
pub fn register(word: &[u8]) -> Option<Register>
    ensures { result ≡ register_of word.now }
{
    let number = number_of(word)?;
    Some(Register::new(number))
}
