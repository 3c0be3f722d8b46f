//! The texts of processors, words and messages.

ghost use Rattle.std.specs.Prelude.{◌≡◌, ◌++◌, IfOk, OnOk, string_bytes, take};
ghost use Rattle.machine_views.specs.Texts.{cut_text, group_text, led_text, link_text, members_text, others_text};
ghost use Rattle.machine_views.specs.Texts.{processor_text, record_text, referred_text, reply_text, request_text};
ghost use Rattle.machine_views.specs.Texts.{word_text};

use crate::names::{Names, push_pc, push_shared_word};
use crate::view::{ProcessorView, ReplyView, RequestView, SharedWord};
use command_io::{push_status, push_word};
use messages::Record;
use phi_algebra::Phi;
use std::alloc::{AllocError, Global};
use std::fmt::Write;
use trace_lines::push_function;

/// A request: its function, its word and its group.
#[tactic(auto, unfolding(crate::specs::Texts::request_text))]
pub fn request_text(
    alloc: Global,
    names: &Names<'_>,
    shown: &RequestView,
) -> Result<String, AllocError>
    ensures { IfOk result (λ text. string_bytes text ≡ request_text names.now shown.now) }
{
    let mut text = String::new(alloc);
    push_function(alloc, &mut text, &shown.request.phi)?;
    push_link(&mut text, &shown.request.phi)?;
    push_shared_word(alloc, &mut text, names, shown.request.word)?;
    push_group(&mut text, shown.group.as_slice())?;
    Ok(text)
}

/// Appends what leads from a function to its word.
fn push_link(text: &mut String, function: &Phi) -> Result<(), AllocError>
    ensures { OnOk result (string_bytes text.new ≡ string_bytes text.old ++ link_text function.now) }
{
    if function.is_identity() {
        text.push_str(" ")
    } else {
        text.push_str(" to ")
    }
}

/// A wait record: who waits for whom, and the function that is kept.
#[tactic(auto, unfolding(crate::specs::Texts::record_text))]
pub fn record_text(alloc: Global, kept: &Record) -> Result<String, AllocError>
    ensures { IfOk result (λ text. string_bytes text ≡ record_text kept.now) }
{
    let mut text = String::new(alloc);
    let (leader, second) = (kept.leader, kept.second);
    write!(text, "{second} waits for {leader}: ")?;
    push_function(alloc, &mut text, &kept.phi)?;
    Ok(text)
}

/// A reply: its value and its group.
#[tactic(auto, unfolding(crate::specs::Texts::reply_text))]
pub fn reply_text(alloc: Global, shown: &ReplyView) -> Result<String, AllocError>
    ensures { IfOk result (λ text. string_bytes text ≡ reply_text shown.now) }
{
    let mut text = String::new(alloc);
    text.push_str("reply ")?;
    push_word(alloc, &mut text, shown.reply.value)?;
    push_group(&mut text, shown.group.as_slice())?;
    Ok(text)
}

/// Appends the members of a group, in the order in which they are served.
#[tactic(auto, unfolding(crate::specs::Texts::group_text))]
fn push_group(text: &mut String, group: &[u8]) -> Result<(), AllocError>
    ensures { OnOk result (string_bytes text.new ≡ string_bytes text.old ++ group_text group.now) }
{
    match group {
        [leader, others @ ..] => push_led(text, *leader, others),
        [] => text.push_str(" {}"),
    }
}

/// Appends the members of a group that has this leader.
#[tactic(auto, unfolding(crate::specs::Texts::led_text))]
fn push_led(text: &mut String, leader: u8, others: &[u8]) -> Result<(), AllocError>
    ensures { OnOk result (string_bytes text.new ≡ string_bytes text.old ++ led_text leader others.now) }
{
    let members = others.len() + 1;
    write!(text, " {{{leader}")?;
    push_others(text, members, others)?;
    text.push('}')
}

/// Appends the members of a group after its leader: all, unless the group has more than 8.
#[tactic(auto, unfolding(crate::specs::Texts::others_text))]
fn push_others(text: &mut String, members: usize, others: &[u8]) -> Result<(), AllocError>
    ensures { OnOk result (string_bytes text.new ≡ string_bytes text.old ++ others_text members others.now) }
{
    if members > 8 {
        push_cut(text, members, others)
    } else {
        push_members(text, others)
    }
}

/// Appends the first three of these members, and the number of all members of their group.
#[tactic(auto, unfolding(crate::specs::Texts::cut_text))]
fn push_cut(text: &mut String, members: usize, others: &[u8]) -> Result<(), AllocError>
    ensures { OnOk result (string_bytes text.new ≡ string_bytes text.old ++ cut_text members others.now) }
{
    push_members(text, first_three(others))?;
    write!(text, " .. {members}")
}

/// The first three members, or all if there are fewer.
fn first_three(members: &[u8]) -> &[u8]
    ensures { result.now ≡ take 3 members.now }
{
    members.split_at(members.len().min(3)).0
}

/// Appends processors.
fn push_members(text: &mut String, members: &[u8]) -> Result<(), AllocError>
    ensures { OnOk result (string_bytes text.new ≡ string_bytes text.old ++ members_text members.now) }
{
    for member in members {
        write!(text, " {member}")?;
    }
    Ok(())
}

/// A processor: its number, its status, its `pc`, and the word of its open reference.
#[tactic(auto, unfolding(crate::specs::Texts::processor_text))]
pub fn processor_text(
    alloc: Global,
    names: &Names<'_>,
    processor: u8,
    shown: &ProcessorView,
) -> Result<String, AllocError>
    ensures { IfOk result (λ text. string_bytes text ≡ processor_text names.now processor shown.now) }
{
    let mut text = String::new(alloc);
    write!(text, "{processor} ")?;
    push_status(alloc, &mut text, shown.status)?;
    text.push(' ')?;
    push_pc(alloc, &mut text, names, shown.pc)?;
    push_referred(alloc, &mut text, names, &shown.word)?;
    Ok(text)
}

/// Appends the word of an open reference, if one is open.
fn push_referred(
    alloc: Global,
    text: &mut String,
    names: &Names<'_>,
    word: &Option<SharedWord>,
) -> Result<(), AllocError>
    ensures { OnOk result (string_bytes text.new ≡ string_bytes text.old ++ referred_text names.now word.now) }
{
    match *word {
        Some(SharedWord { number, .. }) => {
            text.push(' ')?;
            push_shared_word(alloc, text, names, number)
        }
        None => Ok(()),
    }
}

/// A shared word, with its value.
#[tactic(auto, unfolding(crate::specs::Texts::word_text))]
pub fn word_text(alloc: Global, names: &Names<'_>, word: &SharedWord) -> Result<String, AllocError>
    ensures { IfOk result (λ text. string_bytes text ≡ word_text names.now word.now) }
{
    let mut text = String::new(alloc);
    push_shared_word(alloc, &mut text, names, word.number)?;
    text.push_str(" = ")?;
    push_word(alloc, &mut text, word.value)?;
    Ok(text)
}
