//! The numbers of lines as rows of comma-separated values.

ghost use Rattle.std.specs.Prelude.{◌≡◌, ◌++◌, ◌∷◌, [], OnOk, option_map, string_bytes};
ghost use Rattle.std.specs.List.{flat_map};
ghost use Rattle.line_formats.specs.Csv.{csv_text, field_rows, group_row, header_before, is_subject, line_rows};
ghost use Rattle.line_formats.specs.Csv.{part_rows, row, row_beginning, rows_about, subject_of};
ghost use Rattle.line_formats.specs.Subjects.{about};
ghost use Rattle.line_shapes.specs.Cuts.{words_of};
ghost use Rattle.line_shapes.specs.Parts.{cuts_of};

use crate::format::LineFormat;
use line_shapes::{Kind, Part, Shape, after, first_cut, first_word, shape_of, upto};
use std::alloc::{AllocError, Global};

/// The format that prints a row for each number of a line, by these shapes: `SUBJECT,NUMBER,COUNT,VALUE`. The line of
/// kind `machine` has the names of these columns before its rows.
#[derive(Clone, Copy, Drop)]
pub struct Csv<'a>(pub &'a [Shape]);

impl LineFormat for Csv<'_> {
    ghost use Rattle.line_formats.specs.Csv.{csv_text};

    ghost text = { λ csv line. csv_text csv.0.now line };

    fn text(&self, alloc: Global, line: &str) -> Result<Vec<u8>, AllocError> {
        let mut text = String::new(alloc);
        push_line(self.0, line, &mut text)?;
        Ok(text.into_bytes())
    }
}

/// What a row is about.
#[derive(Clone, Copy, Drop)]
struct Subject<'a> {
    name: &'a str,
    /// The number of what has the name, which may be empty.
    number: &'a str,
}

/// Appends what is printed for a line.
#[tactic(auto, unfolding(crate::specs::Csv::csv_text))]
fn push_line(shapes: &[Shape], line: &str, text: &mut String) -> Result<(), AllocError>
    ensures { OnOk result (string_bytes text.new ≡ string_bytes text.old ++ csv_text shapes.now line.now) }
{
    match shape_of(shapes, line) {
        Some(shape) => {
            text.push_str(header_before(shape.0))?;
            push_rows(shape.0, shape.1, line, text)
        }
        None => Ok(()),
    }
}

/// The names of the columns before a line of kind `machine`, and nothing before others.
fn header_before(kind: &str) -> &'static str
    ensures { result.now ≡ header_before kind.now }
{
    if kind == "machine" {
        "subject,number,count,value\n"
    } else {
        ""
    }
}

/// Appends the rows of a line of this kind, with these parts.
fn push_rows(kind: &str, parts: &[Part], line: &str, text: &mut String) -> Result<(), AllocError>
    ensures { OnOk result (string_bytes text.new ≡ string_bytes text.old
        ++ line_rows kind.now (cuts_of parts.now line.now)) }
{
    let Some((part, field, others, rest)) = first_cut(parts, line) else {
        return Ok(());
    };
    match subject_of(&part, field) {
        Some(subject) => push_rows_about(&subject, others, rest, text),
        None => {
            let subject = Subject {
                name: kind,
                number: "",
            };
            push_rows_about(&subject, parts, line, text)
        }
    }
}

/// What a line is about that begins with this part, if the part says so.
fn subject_of<'a>(part: &Part, field: &'a str) -> Option<Subject<'a>>
    ensures { option_map about result
        ≡ subject_of part.now field.now }
{
    match part {
        Part::Literal(_) => None,
        Part::Field(_, name, _) => {
            if is_subject(name) {
                Some(Subject {
                    name,
                    number: field,
                })
            } else {
                None
            }
        }
    }
}

/// Whether a line that begins with a field of this name is about what the field names.
fn is_subject(name: &str) -> bool
    ensures { result ≡ is_subject name.now }
{
    name == "stage" || name == "module" || name == "processor" || name == "word"
}

/// Appends the rows of a text's parts.
fn push_rows_about(
    subject: &Subject<'_>,
    parts: &[Part],
    line: &str,
    text: &mut String,
) -> Result<(), AllocError>
    ensures { OnOk result (string_bytes text.new ≡ string_bytes text.old
        ++ rows_about (about subject.now) (cuts_of parts.now line.now)) }
{
    let Some((part, field, others, rest)) = first_cut(parts, line) else {
        return Ok(());
    };
    push_part_rows(subject, &part, field, text)?;
    push_rows_about(subject, others, rest, text)
}

/// Appends the rows of a part.
fn push_part_rows(
    subject: &Subject<'_>,
    part: &Part,
    field: &str,
    text: &mut String,
) -> Result<(), AllocError>
    ensures { OnOk result (string_bytes text.new ≡ string_bytes text.old
        ++ part_rows (about subject.now) part.now field.now) }
{
    match part {
        Part::Literal(_) => Ok(()),
        Part::Field(_, name, kind) => push_field_rows(subject, name, kind, field, text),
    }
}

/// Appends the rows of a field.
fn push_field_rows(
    subject: &Subject<'_>,
    name: &str,
    kind: &Kind,
    field: &str,
    text: &mut String,
) -> Result<(), AllocError>
    ensures { OnOk result (string_bytes text.new ≡ string_bytes text.old
        ++ field_rows (about subject.now) name.now kind.now field.now) }
{
    match kind {
        Kind::Number => push_row(subject, name, field, text),
        Kind::List => push_group_rows(subject, name, field, text),
        _ => Ok(()),
    }
}

/// Appends the rows of the words of a list.
fn push_group_rows(
    subject: &Subject<'_>,
    name: &str,
    words: &str,
    text: &mut String,
) -> Result<(), AllocError>
    ensures { OnOk result (string_bytes text.new ≡ string_bytes text.old
        ++ flat_map (group_row (about subject.now) name.now) (words_of words.now)) }
{
    match first_word(words) {
        None => push_group_row(subject, name, words, text),
        Some((word, rest)) => {
            push_group_row(subject, name, word, text)?;
            push_group_rows(subject, name, rest, text)
        }
    }
}

/// Appends the row of an item `AxB`, and nothing for another word.
fn push_group_row(
    subject: &Subject<'_>,
    name: &str,
    word: &str,
    text: &mut String,
) -> Result<(), AllocError>
    ensures { OnOk result (string_bytes text.new ≡ string_bytes text.old
        ++ group_row (about subject.now) name.now word.now) }
{
    let Some((size, rest)) = upto("x", word) else {
        return Ok(());
    };
    let Some(count) = after("x", rest) else {
        return Ok(());
    };
    push_beginning(subject, name, text)?;
    text.push_str(" of ")?;
    text.push_str(size)?;
    push_value(count, text)
}

/// Appends a row.
fn push_row(
    subject: &Subject<'_>,
    count: &str,
    value: &str,
    text: &mut String,
) -> Result<(), AllocError>
    ensures { OnOk result (string_bytes text.new ≡ string_bytes text.old
        ++ row (about subject.now) count.now value.now) }
{
    push_beginning(subject, count, text)?;
    push_value(value, text)
}

/// Appends a row up to its count.
fn push_beginning(subject: &Subject<'_>, count: &str, text: &mut String) -> Result<(), AllocError>
    ensures { OnOk result (string_bytes text.new ≡ string_bytes text.old
        ++ row_beginning (about subject.now) count.now) }
{
    text.push_str(subject.name)?;
    text.push(',')?;
    text.push_str(subject.number)?;
    text.push(',')?;
    text.push_str(count)
}

/// Appends a comma, a value and the end of a row.
fn push_value(value: &str, text: &mut String) -> Result<(), AllocError>
    ensures { OnOk result (string_bytes text.new ≡ string_bytes text.old ++ 44 ∷ (value.now ++ 10 ∷ [])) }
{
    text.push(',')?;
    text.push_str(value)?;
    text.push('\n')
}
