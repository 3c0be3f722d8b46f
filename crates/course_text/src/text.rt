//! The plain text of a course text.

ghost use Rattle.std.specs.Prelude.{◌≡◌, ◌++◌, IfOk, OnOk, drop, replicate};
ghost use Rattle.std.specs.List.{flat_map};
ghost use Rattle.course_text.specs.Constants.{constant_values};
ghost use Rattle.course_text.specs.Course.{after_feed, origins, origins_from, plain_from, plain_text};
ghost use Rattle.course_text.specs.Places.{start};
ghost use Rattle.course_text.specs.Views.{nows};

use crate::definitions::constants_of;
use crate::place::Place;
use crate::rewriting::plain_line;
use asm_lines::{Section, parts_at};
use std::alloc::{AllocError, Global};
use std::collections::BTreeMap;

/// The most bytes of a plain text.
pub const MAX_PLAIN_BYTES: usize = 16_777_216;

/// A course text as a plain text.
#[derive(Drop)]
pub struct CourseText {
    /// The plain text.
    pub text: Vec<u8>,
    /// The line of the course text for each line of the plain text. Lines are counted from 1.
    pub origins: Vec<usize>,
}

/// The place of the first line.
const START: Place = Place {
    section: Section::Code,
    code: 0,
    local: 0,
    shared: 0,
};

/// The plain text of a course text.
///
/// # Errors
///
/// [`AllocError`] if memory is short, or if the plain text has more than [`MAX_PLAIN_BYTES`].
#[tactic(auto, unfolding(crate::specs::Course::plain_text, crate::specs::Course::origins))]
pub fn course_text(alloc: Global, text: &[u8]) -> Result<CourseText, AllocError>
    ensures text { IfOk result (λ plain. plain.text.items ≡ plain_text text.now) }
    ensures origins { IfOk result (λ plain. plain.origins.items ≡ origins text.now) }
{
    let lines = parts_at(alloc, text, b'\n')?;
    let constants = constants_of(alloc, &lines)?;
    let plain = rewrite_lines(alloc, &constants, &lines)?;
    let text = Vec::from_slice(alloc, after_first(&plain.text))?;
    Ok(CourseText {
        text,
        origins: plain.origins,
    })
}

/// The bytes after the first.
fn after_first(bytes: &[u8]) -> &[u8]
    ensures { result.now ≡ drop 1 bytes.now }
{
    match bytes {
        [] => bytes,
        [_, rest @ ..] => rest,
    }
}

/// The plain lines of course lines, each after a LF.
fn rewrite_lines<'a>(
    alloc: Global,
    constants: &BTreeMap<&'a [u8], i64>,
    lines: &[&'a [u8]],
) -> Result<CourseText, AllocError>
    ensures text { IfOk result (λ plain. plain.text.items
        ≡ flat_map after_feed (plain_from (constant_values constants.now) start (nows lines.now))) }
    ensures origins { IfOk result (λ plain. plain.origins.items
        ≡ origins_from 1 (plain_from (constant_values constants.now) start (nows lines.now))) }
{
    let mut plain = CourseText {
        text: Vec::new(alloc),
        origins: Vec::new(alloc),
    };
    let mut place = START;
    for (at, line) in lines.iter().enumerate() {
        let text = plain_line(alloc, constants, &place, line)?;
        let count = place.pass_text(alloc, &text)?;
        push_text(&mut plain.text, &text)?;
        push_origins(&mut plain.origins, count, at + 1)?;
    }
    Ok(plain)
}

/// Appends a LF and a text, if there is room.
fn push_text(out: &mut Vec<u8>, text: &[u8]) -> Result<(), AllocError>
    ensures { OnOk result (out.new.items ≡ out.old.items ++ after_feed text.now) }
{
    if out.len() > MAX_PLAIN_BYTES || text.len() > MAX_PLAIN_BYTES - out.len() {
        return Err(AllocError);
    }
    out.push(b'\n')?;
    out.extend_from_slice(text)
}

/// Appends the number of a course line for each of its plain lines.
fn push_origins(origins: &mut Vec<usize>, count: usize, number: usize) -> Result<(), AllocError>
    ensures { OnOk result (origins.new.items ≡ origins.old.items ++ replicate count number) }
{
    for _ in 0..count {
        origins.push(number)?;
    }
    Ok(())
}
