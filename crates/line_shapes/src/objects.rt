//! The object of a line.

ghost use Rattle.std.specs.Prelude.{◌≡◌, ◌++◌, IfOk, IfSome, OnOk, Some};
ghost use Rattle.json.specs.Json.{document};
ghost use Rattle.json.specs.Tree.{json_tokens, members_tokens};
ghost use Rattle.line_shapes.specs.Shapes.{members_of, object_in, object_of, object_text};

use crate::cuts::after;
use crate::parts::{field_in, has_parts};
use crate::shape::{Part, Shape};
use json::Writer;
use std::alloc::{AllocError, Global};

/// Writes the members of a text that has these parts, and the end of their object.
#[tactic(auto, unfolding(crate::specs::Shapes::members_of))]
fn write_members(parts: &[Part], text: &str, writer: &mut Writer) -> Result<(), AllocError>
    ensures tokens { OnOk result (IfSome (members_of parts.now text.now)
        (λ ms. writer.new.tokens ≡ writer.old.tokens ++ members_tokens ms)) }
    ensures before { writer.new.before ≡ writer.old.before }
{
    let Some((part, others)) = parts.split_first() else {
        return writer.end_object();
    };
    let Some(rest) = after(part.text(), text) else {
        return Ok(());
    };
    match part {
        Part::Literal(_) => write_members(others, rest, writer),
        Part::Field(_, name, kind) => {
            let Some((field, rest)) = field_in(others, rest) else {
                return Ok(());
            };
            let Some(value) = kind.value_of(field) else {
                return Ok(());
            };
            writer.key(name)?;
            value.write(writer)?;
            write_members(others, rest, writer)
        }
    }
}

/// Writes the object of a line that has this shape.
fn write_shape(shape: &Shape, line: &str, writer: &mut Writer) -> Result<(), AllocError>
    ensures tokens { OnOk result (IfSome (object_in shape.now line.now)
        (λ j. writer.new.tokens ≡ writer.old.tokens ++ json_tokens j)) }
    ensures before { writer.new.before ≡ writer.old.before }
{
    writer.begin_object()?;
    writer.key("kind")?;
    writer.string(shape.0)?;
    write_members(shape.1, line, writer)
}

/// Writes the object of a line, by these shapes.
#[tactic(auto, unfolding(crate::specs::Shapes::object_of))]
fn write_object(shapes: &[Shape], line: &str, writer: &mut Writer) -> Result<(), AllocError>
    ensures tokens { OnOk result
        (writer.new.tokens ≡ writer.old.tokens ++ json_tokens (object_of shapes.now line.now)) }
    ensures before { writer.new.before ≡ writer.old.before }
{
    for shape in shapes {
        if has_parts(shape.1, line) {
            return write_shape(shape, line, writer);
        }
    }
    writer.begin_object()?;
    writer.key("kind")?;
    writer.string("text")?;
    writer.key("text")?;
    writer.string(line)?;
    writer.end_object()
}

/// The text of a line's object, by these shapes, in UTF-8.
///
/// # Errors
///
/// [`AllocError`] if there is no memory for it.
#[tactic(auto, unfolding(crate::specs::Shapes::object_text))]
pub fn object_text(alloc: Global, shapes: &[Shape], line: &str) -> Result<Vec<u8>, AllocError>
    // It has no blanks between tokens.
    ensures text { IfOk result (λ b. b.items ≡ object_text shapes.now line.now) }

    // A reader of JSON gets that object back.
    ensures reads_back { IfOk result (λ b. document b.items ≡ Some (object_of shapes.now line.now)) }
{
    let mut writer = Writer::new(Vec::new(alloc));
    write_object(shapes, line, &mut writer)?;
    Ok(writer.into_inner())
}
