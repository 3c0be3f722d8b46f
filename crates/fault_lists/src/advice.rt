//! What would be right instead of a fault, in words.

ghost use Rattle.std.specs.Prelude.{◌≡◌, ◌++◌, IfOk, OnOk, codes, string_bytes};
ghost use Rattle.std.specs.Fmt.{decimal, signed_decimal};
ghost use Rattle.line_faults.specs.word_faults.declared.hint.Hint.TheVariants.{UpperBits, Far, StandsOn, Full};
ghost use Rattle.line_faults.specs.word_faults.Wants.{range_of};
ghost use Rattle.fault_lists.specs.Advice.{advice_text, place_text, label_text, from_to, wanted_text, unaligned_text};
ghost use Rattle.fault_lists.specs.Advice.{upper_front, section_name};
ghost use Rattle.fault_lists.specs.Words.{shown};

use crate::words::push_word;
use asm_lines::Section;
use command_io::push_word as push_address;
use line_faults::{Hint, Wanted};
use std::alloc::{AllocError, Global};
use std::fmt::Write;

/// The text of what would be right in place of a word at fault.
pub fn advice_of(alloc: Global, hint: &Hint<'_>) -> Result<String, AllocError>
    ensures { IfOk result (λ text. string_bytes text ≡ advice_text hint.now) }
{
    let mut text = String::new(alloc);
    push_advice(alloc, &mut text, hint)?;
    Ok(text)
}

/// Appends the text of what would be right.
fn push_advice(alloc: Global, text: &mut String, hint: &Hint<'_>) -> Result<(), AllocError>
    ensures { OnOk result (string_bytes text.new ≡ string_bytes text.old ++ advice_text hint.now) }
{
    match *hint {
        Hint::NoWord => text.push_str("there is no such instruction or directive"),
        Hint::NearWord(name) => write!(
            text,
            "there is no such instruction or directive; there is {name}"
        ),
        Hint::Instead(same) => write!(text, "there is no such word here; {same} does the same"),
        Hint::NotNeeded(why) => write!(
            text,
            "there is no such word here, and nothing is needed: {why}"
        ),
        Hint::LabelName => {
            text.push_str("a label's name is a letter or _, and then letters, digits and _")
        }
        Hint::Colon => text.push_str("there is no such instruction; a label ends with a colon"),
        Hint::Operands(form) => write!(text, "the operands are {form}"),
        Hint::Comma(form) => write!(text, "a comma is missing; the operands are {form}"),
        Hint::NoOperand => text.push_str("no operand belongs here"),
        Hint::Wants(wanted) => push_wanted(text, wanted),
        Hint::Bracket => text.push_str("a bracket is missing; an address is i(rs1) or (rs1)"),
        Hint::OutOfRange(wanted) => push_out_of_range(text, wanted),
        _ => push_place(alloc, text, hint),
    }
}

/// Appends what is wrong with a word's upper bits, or with the place of a statement.
fn push_place(alloc: Global, text: &mut String, hint: &Hint<'_>) -> Result<(), AllocError>
    ensures { OnOk result (string_bytes text.new ≡ string_bytes text.old ++ place_text hint.now) }
{
    match *hint {
        Hint::UpperBits(upper) => push_upper(text, upper),
        Hint::OutsideCode => text.push_str("instructions belong in .code"),
        Hint::Unaligned(address) => push_unaligned(alloc, text, address),
        Hint::Odd => text.push_str("the distance of a target is even"),
        _ => push_label(alloc, text, hint),
    }
}

/// Appends what is wrong with a label, or with the room of a section.
fn push_label(alloc: Global, text: &mut String, hint: &Hint<'_>) -> Result<(), AllocError>
    ensures { OnOk result (string_bytes text.new ≡ string_bytes text.old ++ label_text hint.now) }
{
    match *hint {
        Hint::Far(distance, wanted) => push_distance(text, distance, wanted),
        Hint::StandsOn(line) => push_line_of(text, line),
        Hint::NearLabel(name) => push_near(alloc, text, name),
        Hint::Full {
            section,
            room,
            taken,
        } => push_room(text, section, room, taken),
        _ => text.push_str("there is no such label"),
    }
}

/// Appends the upper bits of a word that was given instead of 20 bits.
fn push_upper(text: &mut String, upper: u64) -> Result<(), AllocError>
    ensures { OnOk result (string_bytes text.new ≡ string_bytes text.old ++ place_text (UpperBits upper)) }
{
    push_after(text, upper_front(), upper)
}

/// The text before these bits.
#[tactic(auto, unfolding(crate::specs::Advice::upper_front))]
fn upper_front() -> &'static str
    ensures { result.now ≡ upper_front }
{
    "this takes 20 bits, 0 to 1048575; the upper 20 of this word are "
}

/// Appends how far away a label is.
fn push_distance(text: &mut String, distance: u64, wanted: Wanted) -> Result<(), AllocError>
    ensures { OnOk result (string_bytes text.new ≡ string_bytes text.old ++ label_text (Far distance wanted)) }
{
    push_far(
        text,
        "the label is ",
        distance,
        " bytes away, and",
        wanted,
        " can be reached",
    )
}

/// Appends the line of a label that exists already.
fn push_line_of(text: &mut String, line: usize) -> Result<(), AllocError>
    ensures { OnOk result (string_bytes text.new ≡ string_bytes text.old ++ label_text (StandsOn line)) }
{
    push_count_between(text, "line ", line, " has this label already")
}

/// Appends a label with a similar name.
fn push_near(alloc: Global, text: &mut String, name: &[u8]) -> Result<(), AllocError>
    ensures { OnOk result (string_bytes text.new ≡ string_bytes text.old
        ++ (codes "there is no such label; there is " ++ shown name.now)) }
{
    push_name(alloc, text, "there is no such label; there is ", name)
}

/// Appends how much room a section has.
fn push_room(text: &mut String, section: Section, room: u32, taken: u64) -> Result<(), AllocError>
    ensures { OnOk result (string_bytes text.new ≡ string_bytes text.old ++ label_text (Full section room taken)) }
{
    push_full(
        text,
        section,
        " has room for ",
        room,
        " bytes, and ",
        taken,
        " are used before this",
    )
}

/// Appends a count between two texts.
fn push_count_between(
    text: &mut String,
    front: &str,
    count: usize,
    behind: &str,
) -> Result<(), AllocError>
    ensures { OnOk result (string_bytes text.new ≡ string_bytes text.old
        ++ (front.now ++ decimal count ++ behind.now)) }
{
    text.push_str(front)?;
    push_count(text, count)?;
    text.push_str(behind)
}

/// Appends a count.
fn push_count(text: &mut String, count: usize) -> Result<(), AllocError>
    ensures { OnOk result (string_bytes text.new ≡ string_bytes text.old ++ decimal count) }
{
    write!(text, "{count}")
}

/// Appends what an operand should be.
fn push_wanted(text: &mut String, wanted: Wanted) -> Result<(), AllocError>
    ensures { OnOk result (string_bytes text.new ≡ string_bytes text.old ++ wanted_text wanted) }
{
    match wanted {
        Wanted::Register => text.push_str(
            "there is no such register; registers are x0 to x31 and names such as a0",
        ),
        Wanted::Lower => push_range(text, "a number", wanted, " or %lo(label) belongs here"),
        Wanted::Upper => push_range(text, "a number", wanted, " or %hi(label) belongs here"),
        Wanted::Address => text.push_str("an address belongs here, i(rs1)"),
        Wanted::Base => text.push_str("a register in brackets belongs here, (rs1)"),
        Wanted::Branch => push_range(text, "a label or a number", wanted, " belongs here"),
        Wanted::Jump => push_range(text, "a label or a number", wanted, " belongs here"),
        Wanted::Word => push_range(text, "a label or a number", wanted, " belongs here"),
        Wanted::Shift => push_range(text, "a number", wanted, " belongs here"),
        Wanted::Fence => push_range(text, "a number", wanted, " belongs here"),
        Wanted::Byte => push_range(text, "a number", wanted, " belongs here"),
        Wanted::Count => push_range(text, "a number", wanted, " belongs here"),
    }
}

/// Appends the least and the greatest value of a number, between two texts.
fn push_range(
    text: &mut String,
    front: &str,
    wanted: Wanted,
    behind: &str,
) -> Result<(), AllocError>
    ensures { OnOk result (string_bytes text.new ≡ string_bytes text.old
        ++ (front.now ++ from_to (range_of wanted) ++ behind.now)) }
{
    text.push_str(front)?;
    push_from_to(text, wanted)?;
    text.push_str(behind)
}

/// Appends the least and the greatest value of a number.
fn push_from_to(text: &mut String, wanted: Wanted) -> Result<(), AllocError>
    ensures { OnOk result (string_bytes text.new ≡ string_bytes text.old ++ from_to (range_of wanted)) }
{
    let (least, most) = wanted.range();
    text.push_str(" from ")?;
    push_signed(text, least)?;
    text.push_str(" to ")?;
    push_signed(text, most)
}

/// Appends that a number is out of range.
fn push_out_of_range(text: &mut String, wanted: Wanted) -> Result<(), AllocError>
    ensures { OnOk result (string_bytes text.new ≡ string_bytes text.old
        ++ (codes "the number is not" ++ from_to (range_of wanted))) }
{
    text.push_str("the number is not")?;
    push_from_to(text, wanted)
}

/// Appends a number.
fn push_signed(text: &mut String, number: i64) -> Result<(), AllocError>
    ensures { OnOk result (string_bytes text.new ≡ string_bytes text.old ++ signed_decimal number) }
{
    write!(text, "{number}")
}

/// Appends a number.
fn push_decimal(text: &mut String, number: u64) -> Result<(), AllocError>
    ensures { OnOk result (string_bytes text.new ≡ string_bytes text.old ++ decimal number) }
{
    write!(text, "{number}")
}

/// Appends that an address is not divisible by 4.
fn push_unaligned(alloc: Global, text: &mut String, address: u64) -> Result<(), AllocError>
    ensures { OnOk result (string_bytes text.new ≡ string_bytes text.old ++ unaligned_text address) }
{
    text.push_str("its address ")?;
    push_address(alloc, text, (address % 0x1_0000_0000) as u32)?;
    text.push_str(" is not divisible by 4")
}

/// Appends a number after a text.
fn push_after(text: &mut String, front: &str, number: u64) -> Result<(), AllocError>
    ensures { OnOk result (string_bytes text.new ≡ string_bytes text.old ++ (front.now ++ decimal number)) }
{
    text.push_str(front)?;
    push_decimal(text, number)
}

/// Appends a number between two texts.
fn push_between(text: &mut String, front: &str, number: u64, behind: &str) -> Result<(), AllocError>
    ensures { OnOk result (string_bytes text.new ≡ string_bytes text.old
        ++ (front.now ++ decimal number ++ behind.now)) }
{
    text.push_str(front)?;
    push_decimal(text, number)?;
    text.push_str(behind)
}

/// Appends a distance, and its least and greatest value, between three texts.
fn push_far(
    text: &mut String,
    front: &str,
    distance: u64,
    between: &str,
    wanted: Wanted,
    behind: &str,
) -> Result<(), AllocError>
    ensures { OnOk result (string_bytes text.new ≡ string_bytes text.old
        ++ (front.now ++ decimal distance ++ between.now ++ from_to (range_of wanted) ++ behind.now)) }
{
    text.push_str(front)?;
    push_decimal(text, distance)?;
    push_range(text, between, wanted, behind)
}

/// Appends a name after a text.
fn push_name(alloc: Global, text: &mut String, front: &str, name: &[u8]) -> Result<(), AllocError>
    ensures { OnOk result (string_bytes text.new ≡ string_bytes text.old ++ (front.now ++ shown name.now)) }
{
    text.push_str(front)?;
    push_word(alloc, text, name)
}

/// Appends how much room a section has, between three texts.
fn push_full(
    text: &mut String,
    section: Section,
    front: &str,
    room: u32,
    between: &str,
    taken: u64,
    behind: &str,
) -> Result<(), AllocError>
    ensures { OnOk result (string_bytes text.new ≡ string_bytes text.old
        ++ (section_name section ++ front.now ++ decimal room ++ between.now ++ decimal taken ++ behind.now)) }
{
    text.push_str(name_of(section))?;
    push_between(text, front, u64::from(room), between)?;
    push_decimal(text, taken)?;
    text.push_str(behind)
}

/// The directive of a section.
fn name_of(section: Section) -> &'static str
    ensures { result.now ≡ section_name section }
{
    match section {
        Section::Code => ".code",
        Section::Local => ".local",
        Section::Shared => ".shared",
    }
}
