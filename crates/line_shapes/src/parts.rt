//! A line that is cut into the parts of its shape.

ghost use Rattle.std.specs.Prelude.{◌≡◌, ◌<◌, ◌∷◌, [], IfSome, MatchOption, is_some, length, option_map};
ghost use Rattle.line_shapes.specs.Parts.{cuts_of, field_of, shape_of};
ghost use Rattle.line_shapes.specs.Shapes.{field_in, members_of, text_of};

use crate::cuts::{after, upto};
use crate::shape::{Part, Shape};

impl Part {
    /// The text with which the part begins.
    pub(crate) fn text(&self) -> &'static str
        ensures { result.now ≡ text_of self.now }
    {
        match self {
            Part::Literal(text) => text,
            Part::Field(text, _, _) => text,
        }
    }

    /// The text of the part's field, which is empty for a literal, and what follows it.
    fn field<'a>(&self, next: &[Part], text: &'a str) -> Option<(&'a str, &'a str)>
        ensures { option_map (λ x. (x.0.now, x.1.now)) result ≡ field_of self.now next.now text.now }
    {
        match self {
            Part::Literal(_) => Some(("", text)),
            Part::Field(_, _, _) => field_in(next, text),
        }
    }
}

/// The text of a field, and what follows it: the field ends where the next part first stands, or with the line.
pub(crate) fn field_in<'a>(next: &[Part], text: &'a str) -> Option<(&'a str, &'a str)>
    ensures { option_map (λ x. (x.0.now, x.1.now)) result ≡ field_in next.now text.now }
{
    match next.first() {
        Some(part) => upto(part.text(), text),
        None => Some((text, "")),
    }
}

/// Whether a text has these parts.
#[tactic(auto, unfolding(crate::specs::Shapes::members_of))]
pub(crate) fn has_parts(parts: &[Part], text: &str) -> bool
    ensures { result ≡ is_some (members_of parts.now text.now) }
{
    let Some((part, others)) = parts.split_first() else {
        return text.is_empty();
    };
    let Some(rest) = after(part.text(), text) else {
        return false;
    };
    match part {
        Part::Literal(_) => has_parts(others, rest),
        Part::Field(_, _, kind) => match field_in(others, rest) {
            Some((field, rest)) => kind.value_of(field).is_some() && has_parts(others, rest),
            None => false,
        },
    }
}

/// The first of these shapes that the line has.
pub fn shape_of(shapes: &[Shape], line: &str) -> Option<Shape>
    ensures { result ≡ shape_of shapes.now line.now }
{
    shapes
        .iter()
        .copied()
        .find(|shape| has_parts(shape.1, line))
}

/// The first part of a text with the text of its field, and then the other parts and the text after it; None if the
/// text has no part.
#[tactic(auto, unfolding(crate::specs::Parts::cuts_of))]
pub fn first_cut<'p, 'a>(
    parts: &'p [Part],
    text: &'a str,
) -> Option<(Part, &'a str, &'p [Part], &'a str)>
    ensures cuts { MatchOption result (cuts_of parts.now text.now ≡ [])
        (λ x. cuts_of parts.now text.now ≡ (x.0, x.1.now) ∷ cuts_of x.2.now x.3.now) }
    ensures fewer { IfSome result (λ x. length x.2.now < length parts.now) }
{
    let (part, others) = parts.split_first()?;
    let rest = after(part.text(), text)?;
    let (field, rest) = part.field(others, rest)?;
    Some((*part, field, others, rest))
}
