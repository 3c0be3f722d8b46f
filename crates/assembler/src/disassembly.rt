//! From instructions to their text.

ghost use Rattle.std.specs.Prelude.{◌≡◌, ◌≤◌, ◌<◌, ◌+◌, ◌*◌, ◌^◌, ◌++◌, ◌∷◌, [], length};
ghost use Rattle.std.specs.Fmt.{signed_decimal};
ghost use Rattle.arrayvec.specs.ArrayString.{array_string_len};
ghost use Rattle.asm_lines.specs.Names.{written, x_name};
ghost use Rattle.asm_lines.specs.Written.{mnemonic_of_insn, order_of_insn, signed, offset, in_brackets, text_of};

use arrayvec::ArrayString;
use asm_lines::{Mnemonic, Order, x_name};
use itoa::Buffer;
use rv_table::{Immediate, Insn, Register};

/// The number that a field means in two's complement, where the sign bit has the weight `sign`.
fn sign_extend(sign: u32, field: u32) -> i32
    requires field { field < 2 * sign }
    requires sign { sign < 2 ^ 30 }
    ensures { result ≡ signed sign field }
{
    if field < sign {
        field as i32
    } else {
        field as i32 - 2 * sign as i32
    }
}

/// The number in an I- or S-immediate.
fn immediate(imm: Immediate<12>) -> i32
    ensures { result ≡ signed (2 ^ 11) imm }
{
    sign_extend(0x800, imm.field())
}

/// The offset of a branch, in bytes.
fn branch_offset(steps: Immediate<12>) -> i32
    ensures { result ≡ offset (2 ^ 11) steps }
{
    sign_extend(0x1000, 2 * steps.field())
}

/// The offset of a jump, in bytes.
fn jump_offset(steps: Immediate<20>) -> i32
    ensures { result ≡ offset (2 ^ 19) steps }
{
    sign_extend(0x10_0000, 2 * steps.field())
}

/// Replaces the text by the mnemonic and its suffix.
fn put_mnemonic(insn: &Insn, text: &mut ArrayString<48>)
    ensures bytes { text.new.bytes ≡ written (mnemonic_of_insn insn.now) (order_of_insn insn.now) }
    ensures len { array_string_len text.new ≤ 14 }
{
    text.clear();
    text.push_str(Mnemonic::of(insn).name());
    text.push_str(Order::of(insn).suffix());
}

/// Appends the first operand, a register.
fn put_first(text: &mut ArrayString<48>, register: Register)
    requires { array_string_len text.old + 4 ≤ 48 }
    ensures bytes { text.new.bytes ≡ text.old.bytes ++ 32 ∷ x_name register }
    ensures len { array_string_len text.new ≤ array_string_len text.old + 4 }
{
    text.push_str(" ");
    text.push_str(x_name(register));
}

/// Appends another operand, a register.
fn put_register(text: &mut ArrayString<48>, register: Register)
    requires { array_string_len text.old + 5 ≤ 48 }
    ensures bytes { text.new.bytes ≡ text.old.bytes ++ 44 ∷ 32 ∷ x_name register }
    ensures len { array_string_len text.new ≤ array_string_len text.old + 5 }
{
    text.push_str(", ");
    text.push_str(x_name(register));
}

/// Appends another operand, a number.
fn put_number(text: &mut ArrayString<48>, number: i32)
    requires { array_string_len text.old + 13 ≤ 48 }
    ensures bytes { text.new.bytes ≡ text.old.bytes ++ 44 ∷ 32 ∷ signed_decimal number }
    ensures len { array_string_len text.new ≤ array_string_len text.old + 13 }
{
    text.push_str(", ");
    text.push_str(Buffer::new().format(number));
}

/// Appends a register in brackets.
fn put_base(text: &mut ArrayString<48>, register: Register)
    requires { array_string_len text.old + 5 ≤ 48 }
    ensures { text.new.bytes ≡ text.old.bytes ++ in_brackets [] (x_name register) }
{
    text.push_str("(");
    text.push_str(x_name(register));
    text.push_str(")");
}

/// Appends another operand, of the form `imm(rs1)`.
fn put_address(text: &mut ArrayString<48>, imm: Immediate<12>, rs1: Register)
    requires { array_string_len text.old + 18 ≤ 48 }
    ensures { text.new.bytes ≡ text.old.bytes
        ++ 44 ∷ 32 ∷ in_brackets (signed_decimal (signed (2 ^ 11) imm)) (x_name rs1) }
{
    put_number(text, immediate(imm));
    put_base(text, rs1);
}

/// Replaces `text` by the text of the instruction, with registers as `x0` to `x31` and numbers in decimal. No
/// instruction needs more than 48 bytes.
#[tactic(auto, unfolding(asm_lines::specs::Written::text_of))]
pub fn disassemble(insn: &Insn, text: &mut ArrayString<48>)
    ensures { text.new.bytes ≡ text_of insn.now }
{
    put_mnemonic(insn, text);
    match *insn {
        Insn::Op { rd, rs1, rs2, .. } => {
            put_first(text, rd);
            put_register(text, rs1);
            put_register(text, rs2);
        }
        Insn::OpImm { rd, rs1, imm, .. } => {
            put_first(text, rd);
            put_register(text, rs1);
            put_number(text, immediate(imm));
        }
        Insn::Shift {
            rd,
            rs1,
            amount,
            ..
        } => {
            put_first(text, rd);
            put_register(text, rs1);
            put_number(text, amount.field() as i32);
        }
        Insn::Load { rd, rs1, imm, .. } | Insn::Jalr { rd, rs1, imm } => {
            put_first(text, rd);
            put_address(text, imm, rs1);
        }
        Insn::Store { rs1, rs2, imm, .. } => {
            put_first(text, rs2);
            put_address(text, imm, rs1);
        }
        Insn::Branch {
            rs1,
            rs2,
            offset,
            ..
        } => {
            put_first(text, rs1);
            put_register(text, rs2);
            put_number(text, branch_offset(offset));
        }
        Insn::Upper { rd, upper, .. } => {
            put_first(text, rd);
            put_number(text, upper.field() as i32);
        }
        Insn::Jal { rd, offset } => {
            put_first(text, rd);
            put_number(text, jump_offset(offset));
        }
        Insn::Fence { rd, rs1, ordering } => {
            put_first(text, rd);
            put_register(text, rs1);
            put_number(text, ordering.field() as i32);
        }
        Insn::Ecall | Insn::Ebreak => {}
        Insn::Amo { rd, rs1, rs2, .. } => {
            put_first(text, rd);
            put_register(text, rs2);
            text.push_str(", ");
            put_base(text, rs1);
        }
    }
}
