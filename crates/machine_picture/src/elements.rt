//! The SVG elements of a picture.

ghost use Rattle.std.specs.Prelude.{◌≡◌, ◌++◌, OnOk, string_bytes};
ghost use Rattle.machine_picture.specs.Elements.{attribute, box_text, class_of, class_text, corner_text, ends_text};
ghost use Rattle.machine_picture.specs.Elements.{escaped, escaped_char, label_text, size_text, span_text, wire_text};

use machine_views::Kind;
use std::alloc::AllocError;
use std::fmt::Write;

/// A place in a picture.
#[derive(Clone, Copy, Debug, Drop)]
pub struct Point {
    /// How far from the left side.
    pub x: u32,
    /// How far from the top.
    pub y: u32,
}

/// How wide and high a box is.
#[derive(Clone, Copy, Debug, Drop)]
pub struct Size {
    /// How wide it is.
    pub width: u32,
    /// How high it is.
    pub height: u32,
}

/// Appends an attribute.
#[tactic(auto, unfolding(crate::specs::Elements::attribute))]
pub fn push_attribute(text: &mut String, name: &str, value: u32) -> Result<(), AllocError>
    ensures { OnOk result (string_bytes text.new ≡ string_bytes text.old ++ attribute name.now value) }
{
    text.push(' ')?;
    text.push_str(name)?;
    write!(text, "='{value}'")
}

/// Appends the attribute for a class.
#[tactic(auto, unfolding(crate::specs::Elements::class_text))]
pub fn push_class(text: &mut String, class: &str) -> Result<(), AllocError>
    ensures { OnOk result (string_bytes text.new ≡ string_bytes text.old ++ class_text class.now) }
{
    text.push_str(" class='")?;
    text.push_str(class)?;
    text.push_str("'")
}

/// Appends the attributes for a corner.
#[tactic(auto, unfolding(crate::specs::Elements::corner_text))]
fn push_corner(text: &mut String, corner: Point) -> Result<(), AllocError>
    ensures { OnOk result (string_bytes text.new ≡ string_bytes text.old ++ corner_text corner.x corner.y) }
{
    push_attribute(text, "x", corner.x)?;
    push_attribute(text, "y", corner.y)
}

/// Appends the attributes for a size.
#[tactic(auto, unfolding(crate::specs::Elements::size_text))]
pub fn push_size(text: &mut String, size: Size) -> Result<(), AllocError>
    ensures { OnOk result (string_bytes text.new ≡ string_bytes text.old ++ size_text size.width size.height) }
{
    push_attribute(text, "width", size.width)?;
    push_attribute(text, "height", size.height)
}

/// Appends a box of this class with this upper left corner.
#[tactic(auto, unfolding(crate::specs::Elements::box_text))]
pub fn push_box(text: &mut String, corner: Point, size: Size, class: &str) -> Result<(), AllocError>
    ensures { OnOk result (string_bytes text.new ≡ string_bytes text.old
        ++ box_text corner.x corner.y size.width size.height class.now) }
{
    text.push_str("<rect")?;
    push_corner(text, corner)?;
    push_size(text, size)?;
    push_class(text, class)?;
    text.push_str("/>")?;
    text.push('\n')
}

/// Appends the attributes for the ends of a line.
#[tactic(auto, unfolding(crate::specs::Elements::ends_text))]
fn push_ends(text: &mut String, from: Point, to: Point) -> Result<(), AllocError>
    ensures { OnOk result (string_bytes text.new ≡ string_bytes text.old ++ ends_text from.x from.y to.x to.y) }
{
    push_attribute(text, "x1", from.x)?;
    push_attribute(text, "y1", from.y)?;
    push_attribute(text, "x2", to.x)?;
    push_attribute(text, "y2", to.y)
}

/// Appends a line between two points.
#[tactic(auto, unfolding(crate::specs::Elements::wire_text))]
pub fn push_wire(text: &mut String, from: Point, to: Point) -> Result<(), AllocError>
    ensures { OnOk result (string_bytes text.new ≡ string_bytes text.old ++ wire_text from.x from.y to.x to.y) }
{
    text.push_str("<line")?;
    push_ends(text, from, to)?;
    text.push_str("/>")?;
    text.push('\n')
}

/// Appends a text of this class that begins at this point.
#[tactic(auto, unfolding(crate::specs::Elements::label_text))]
pub fn push_label(text: &mut String, at: Point, class: &str, shown: &str) -> Result<(), AllocError>
    ensures { OnOk result (string_bytes text.new ≡ string_bytes text.old ++ label_text at.x at.y class.now shown.now) }
{
    text.push_str("<text")?;
    push_corner(text, at)?;
    push_class(text, class)?;
    text.push('>')?;
    push_escaped(text, shown)?;
    text.push_str("</text>")?;
    text.push('\n')
}

/// Appends a part of a text of several lines, at this distance below the part before it.
#[tactic(auto, unfolding(crate::specs::Elements::span_text))]
pub fn push_span(
    text: &mut String,
    x: u32,
    down: u32,
    class: &str,
    shown: &str,
) -> Result<(), AllocError>
    ensures { OnOk result (string_bytes text.new ≡ string_bytes text.old ++ span_text x down class.now shown.now) }
{
    text.push_str("<tspan")?;
    push_attribute(text, "x", x)?;
    push_attribute(text, "dy", down)?;
    push_class(text, class)?;
    text.push('>')?;
    push_escaped(text, shown)?;
    text.push_str("</tspan>")
}

/// Appends a text as XML spells it.
#[tactic(auto, unfolding(crate::specs::Elements::escaped))]
fn push_escaped(text: &mut String, shown: &str) -> Result<(), AllocError>
    ensures { OnOk result (string_bytes text.new ≡ string_bytes text.old ++ escaped shown.now) }
{
    for letter in shown.chars() {
        push_escaped_char(text, letter)?;
    }
    Ok(())
}

/// Appends a character as XML spells it.
fn push_escaped_char(text: &mut String, letter: char) -> Result<(), AllocError>
    ensures { OnOk result (string_bytes text.new ≡ string_bytes text.old ++ escaped_char letter) }
{
    match letter {
        '&' => text.push_str("&amp;"),
        '<' => text.push_str("&lt;"),
        '>' => text.push_str("&gt;"),
        '"' => text.push_str("&quot;"),
        _ => text.push(letter),
    }
}

/// The class of a line.
pub fn class_of(kind: Kind) -> &'static str
    ensures { result.now ≡ class_of kind }
{
    match kind {
        Kind::Request => "request",
        Kind::Record => "record",
        Kind::Reply => "reply",
        Kind::Word => "word",
    }
}
