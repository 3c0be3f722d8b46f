//! Forms of plain instructions that only course texts have.

ghost use Rattle.std.specs.Prelude.{◌≡◌, IfOk};
ghost use Rattle.std.specs.Option.{option_map};
ghost use Rattle.asm_lines.specs.Names.{mnemonic_of};
ghost use Rattle.course_text.specs.Forms.{at_base, load_form, store_at, store_form, jal_form, jalr_to, jalr_form};
ghost use Rattle.course_text.specs.Forms.{amo_form};
ghost use Rattle.course_text.specs.Forms.{form_of, form_text, fence_text, fence_bits};
ghost use Rattle.course_text.specs.Templates.{filled};
ghost use Rattle.course_text.specs.Views.{nows, bytes_of};

use crate::bytes::with_number;
use crate::fences::fence_bits;
use crate::templates::filled;
use asm_lines::{Mnemonic, is_name, register_named};
use std::alloc::{AllocError, Global};

/// The template of a load or a store at `(rs1)`.
fn at_base(address: &[u8]) -> Option<&'static str>
    ensures { option_map (λ t. t.now) result ≡ at_base address.now }
{
    match address {
        [b'(', ..] => Some("@ A, 0B"),
        _ => None,
    }
}

/// The template of `lw rd, label` and `lw rd, (rs1)`.
fn load_form(words: &[&[u8]]) -> Option<&'static str>
    ensures { option_map (λ t. t.now) result ≡ load_form (nows words.now) }
{
    let [_, _, address] = words else {
        return None;
    };
    if is_name(address) {
        Some("lui A, %hi(B)\n@ A, %lo(B)(A)")
    } else {
        at_base(address)
    }
}

/// The template of `sw rs2, label, rt`.
fn store_at(name: &[u8]) -> Option<&'static str>
    ensures { option_map (λ t. t.now) result ≡ store_at name.now }
{
    if is_name(name) {
        Some("lui C, %hi(B)\n@ A, %lo(B)(C)")
    } else {
        None
    }
}

/// The template of `sw rs2, label, rt` and `sw rs2, (rs1)`.
fn store_form(words: &[&[u8]]) -> Option<&'static str>
    ensures { option_map (λ t. t.now) result ≡ store_form (nows words.now) }
{
    match words {
        [_, _, address] => at_base(address),
        [_, _, name, _] => store_at(name),
        _ => None,
    }
}

/// The template of `jal target`.
fn jal_form(words: &[&[u8]]) -> Option<&'static str>
    ensures { option_map (λ t. t.now) result ≡ jal_form (nows words.now) }
{
    match words {
        [_, _] => Some("jal ra, A"),
        _ => None,
    }
}

/// The template of `jalr rd, rs1` and `jalr rd, (rs1)`.
fn jalr_to(operand: &[u8]) -> Option<&'static str>
    ensures { option_map (λ t. t.now) result ≡ jalr_to operand.now }
{
    if register_named(operand).is_some() {
        Some("jalr A, 0(B)")
    } else {
        at_base(operand)
    }
}

/// The template of `jalr rs1`, `jalr rd, rs1`, `jalr rd, (rs1)` and `jalr rd, rs1, i`.
fn jalr_form(words: &[&[u8]]) -> Option<&'static str>
    ensures { option_map (λ t. t.now) result ≡ jalr_form (nows words.now) }
{
    match words {
        [_, _] => Some("jalr ra, 0(A)"),
        [_, _, operand] => jalr_to(operand),
        [_, _, _, _] => Some("jalr A, C(B)"),
        _ => None,
    }
}

/// The plain line of an atomic memory operation at `0(rs1)`.
fn amo_text(alloc: Global, words: &[&[u8]]) -> Result<Option<Vec<u8>>, AllocError>
    ensures { IfOk result (λ text. option_map bytes_of text ≡ amo_form (nows words.now)) }
{
    let [word, rd, rs2, [b'0', base @ ..]] = words else {
        return Ok(None);
    };
    if !matches!(base, [b'(', ..]) {
        return Ok(None);
    }
    Ok(Some(filled(alloc, &[word, rd, rs2, base], "@ A, B, C")?))
}

/// The plain line of a fence.
fn fence_text(alloc: Global, words: &[&[u8]]) -> Result<Option<Vec<u8>>, AllocError>
    ensures { IfOk result (λ text. option_map bytes_of text ≡ option_map fence_text (fence_bits (nows words.now))) }
{
    match fence_bits(words) {
        None => Ok(None),
        Some(bits) => Ok(Some(with_number(alloc, b"fence x0, x0, ", bits)?)),
    }
}

/// The template with the words at its marks, if there is one.
fn filled_if(
    alloc: Global,
    words: &[&[u8]],
    template: Option<&'static str>,
) -> Result<Option<Vec<u8>>, AllocError>
    ensures { IfOk result (λ text. option_map bytes_of text
        ≡ option_map (filled (nows words.now)) (option_map (λ t. t.now) template.entry)) }
{
    match template {
        None => Ok(None),
        Some(template) => Ok(Some(filled(alloc, words, template)?)),
    }
}

/// The plain line of a form of this instruction.
fn form_of(
    alloc: Global,
    mnemonic: Mnemonic,
    words: &[&[u8]],
) -> Result<Option<Vec<u8>>, AllocError>
    ensures { IfOk result (λ text. option_map bytes_of text ≡ form_of mnemonic (nows words.now)) }
{
    match mnemonic {
        Mnemonic::Load(_) => filled_if(alloc, words, load_form(words)),
        Mnemonic::Store(_) => filled_if(alloc, words, store_form(words)),
        Mnemonic::Jal => filled_if(alloc, words, jal_form(words)),
        Mnemonic::Jalr => filled_if(alloc, words, jalr_form(words)),
        Mnemonic::Amo(_) => amo_text(alloc, words),
        Mnemonic::Fence => fence_text(alloc, words),
        Mnemonic::Op(_) | Mnemonic::OpImm(_) | Mnemonic::Shift(_) => Ok(None),
        Mnemonic::Branch(_) | Mnemonic::Upper(_) => Ok(None),
        Mnemonic::Ecall | Mnemonic::Ebreak => Ok(None),
    }
}

/// The plain line of a statement that has a form of course texts.
pub fn form_text(alloc: Global, word: &[u8], words: &[&[u8]]) -> Result<Option<Vec<u8>>, AllocError>
    ensures { IfOk result (λ text. option_map bytes_of text ≡ form_text (mnemonic_of word.now) (nows words.now)) }
{
    match Mnemonic::find(word) {
        None => Ok(None),
        Some((mnemonic, _)) => form_of(alloc, mnemonic, words),
    }
}
