//! Shapes of lines.

/// What the text of a field is, and what stands for it in JSON.
#[derive(Clone, Copy, Drop)]
pub enum Kind {
    /// A number in decimal: the number.
    Number,
    /// A number in decimal, or `-`: the number, or null.
    NumberOrNone,
    /// Eight hex digits: the number.
    Word,
    /// Two hex digits: the number.
    Byte,
    /// Hex digits, or `-`: the digits as a string, which is empty for `-`.
    Bytes,
    /// A letter and a digit: the string.
    Code,
    /// Any text: the string.
    Text,
    /// Any text, in which words of eight hex digits are values: the string.
    Function,
    /// A number in decimal, followed by these words, and by an `s` unless the number is 1: the number.
    Count(&'static str),
    /// Words, with a blank between two of them: an array with an item for each word. The item of `AxB` is the array of
    /// the numbers A and B, and of any other word the number.
    List,
    /// Words of eight hex digits, with a blank between two of them: an array of the numbers.
    Words,
    /// No text: this string.
    Is(&'static str),
    /// No text: the number 0.
    Zero,
}

/// A part of a line.
#[derive(Clone, Copy, Drop)]
pub enum Part {
    /// This text, of which the object has no member.
    Literal(&'static str),
    /// This text, and then a field, of which the object has a member: its name, and its kind. The field ends where the
    /// text of the next part first stands, or with the line.
    Field(&'static str, &'static str, Kind),
}

/// A shape of lines: the kind of its objects, and the parts of a line.
#[derive(Clone, Copy, Drop)]
pub struct Shape(pub &'static str, pub &'static [Part]);
