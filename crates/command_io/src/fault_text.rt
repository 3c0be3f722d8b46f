//! How a fault is printed on standard error.

ghost use Rattle.std.specs.Prelude.{◌≡◌, ◌≤◌, ◌+◌, ◌++◌, Some, length};
ghost use Rattle.std.specs.Fmt.{decimal};
ghost use Rattle.arrayvec.specs.ArrayString.{array_string_len};
ghost use Rattle.command_io.specs.FaultTexts.{code_of, fault_line, fault_text, image_code, place_of, text_code};
ghost use Rattle.command_io.specs.FaultTexts.{trace_code};

use crate::fault::Fault;
use arrayvec::ArrayString;
use assembler::AsmFault;
use elf_image::ImageError;
use itoa::Buffer;
use std::error::Error;
use std::fmt;
use trace_file::TraceError;

/// The code of an assembler fault.
fn text_code(fault: AsmFault) -> &'static str
    ensures code { result.now ≡ text_code fault }
    ensures short { length result.now ≤ 6 }
{
    match fault {
        AsmFault::UnknownWord => "A1",
        AsmFault::Form => "A2",
        AsmFault::Range => "A3",
        AsmFault::LabelTwice => "A4",
        AsmFault::LabelMissing => "A5",
        AsmFault::SectionFull => "A6",
        AsmFault::Memory => "A7",
    }
}

/// The code of an image error.
fn image_code(error: ImageError) -> &'static str
    ensures code { result.now ≡ image_code error }
    ensures short { length result.now ≤ 6 }
{
    match error {
        ImageError::Truncated => "I1",
        ImageError::NotExecutable => "I2",
        ImageError::UnsupportedHeader => "I3",
        ImageError::OutsideInput => "I4",
        ImageError::OutsideRegions => "I5",
        ImageError::Overlap => "I6",
        ImageError::Entry => "I7",
        ImageError::TooLong => "I8",
        ImageError::Link => "I9",
        ImageError::Memory => "I10",
    }
}

/// The code of a trace error.
fn trace_code(error: TraceError) -> &'static str
    ensures code { result.now ≡ trace_code error }
    ensures short { length result.now ≤ 6 }
{
    match error {
        TraceError::Truncated => "X1",
        TraceError::Header => "X2",
        TraceError::Record => "X3",
        TraceError::Trailing => "X4",
        TraceError::Link => "X5",
        TraceError::Memory => "X6",
    }
}

/// Appends words and then a number.
fn push_place(text: &mut ArrayString<32>, words: &str, place: usize)
    requires short { length words.now ≤ 6 }
    requires room { array_string_len text.old ≤ 6 }
    ensures { text.new.bytes ≡ text.old.bytes ++ words.now ++ decimal place }
{
    text.push_str(words);
    text.push_str(Buffer::new().format(place));
}

impl Fault {
    /// The code of the fault, which names it on standard error.
    pub fn code(self) -> &'static str
        ensures code { result.now ≡ code_of self }
        ensures short { length result.now ≤ 6 }
    {
        match self {
            Fault::Line(_) => "V1",
            Fault::Text(error) => text_code(error.fault),
            Fault::NotUtf8 | Fault::Link => "link",
            Fault::Image(error) => image_code(error),
            Fault::Trace(error) => trace_code(error),
            Fault::Size => "K1",
            Fault::Stalled(_) => "X7",
            Fault::Budget => "budget",
            Fault::Full => "L2",
            Fault::Loan => "L4",
            Fault::Start => "Start",
            Fault::States => "states",
            Fault::Alone => "alone",
            Fault::Memory => "memory",
        }
    }

    /// The code of the fault, and its place in the file.
    #[tactic(auto, unfolding(crate::specs::FaultTexts::fault_text))]
    pub fn text(self) -> ArrayString<32>
        ensures { result.bytes ≡ fault_text self }
    {
        let mut text = ArrayString::new();
        text.push_str(self.code());
        match self {
            Fault::Line(number) => push_place(&mut text, " line ", number as usize),
            Fault::Text(error) => push_place(&mut text, " line ", error.line),
            Fault::Stalled(place) => push_place(&mut text, " step ", place),
            _ => {}
        }
        text
    }

    /// The line that reports the fault.
    #[tactic(auto, unfolding(crate::specs::FaultTexts::fault_line))]
    pub(crate) fn line(self) -> ArrayString<40>
        ensures { result.bytes ≡ fault_line self }
    {
        let mut line = ArrayString::new();
        line.push_str("ultra: ");
        line.push_str(self.text().as_str());
        line.push_str("\n");
        line
    }
}

/// What standard error gets after `ultra: `.
impl fmt::Display for Fault {
    ghost output = { λ f. Some (fault_text f) };

    fn fmt<W: fmt::Write>(&self, f: &mut fmt::Formatter<W>) -> fmt::Result {
        f.write_str(self.text().as_str())
    }
}

impl Error for Fault {}
