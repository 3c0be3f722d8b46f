//! The line that reports each fault, its exit status, and the topic that explains its code.

use assembler::{AsmError, AsmFault};
use command_io::{Fault, report_fault};
use elf_image::ImageError;
use explain_command::all_topics;
use std::test::Fail;
use test_support::assert_same;
use trace_file::TraceError;

/// A text's fault at a line.
macro_rules! text {
    ($fault:ident, $line:expr) => {
        Fault::Text(AsmError {
            line: $line,
            fault: AsmFault::$fault,
        })
    };
}

/// Each fault that can be reported. A text, an image or a trace for which there is no memory is a `Fault::Memory` too.
const REPORTS: [(Fault, &str, u8); 34] = [
    (Fault::Line(1), "V1 line 1", 2),
    (Fault::Line(16_385), "V1 line 16385", 2),
    (text!(UnknownWord, 1), "A1 line 1", 2),
    (text!(Form, 2), "A2 line 2", 2),
    (text!(Range, 30), "A3 line 30", 2),
    (text!(LabelTwice, 409), "A4 line 409", 2),
    (text!(LabelMissing, 5), "A5 line 5", 2),
    (
        text!(SectionFull, usize::MAX),
        "A6 line 18446744073709551615",
        2,
    ),
    (Fault::NotUtf8, "link", 3),
    (Fault::Image(ImageError::Truncated), "I1", 2),
    (Fault::Image(ImageError::NotExecutable), "I2", 2),
    (Fault::Image(ImageError::UnsupportedHeader), "I3", 2),
    (Fault::Image(ImageError::OutsideInput), "I4", 2),
    (Fault::Image(ImageError::OutsideRegions), "I5", 2),
    (Fault::Image(ImageError::Overlap), "I6", 2),
    (Fault::Image(ImageError::Entry), "I7", 2),
    (Fault::Image(ImageError::TooLong), "I8", 2),
    (Fault::Image(ImageError::Link), "I9", 3),
    (Fault::Trace(TraceError::Truncated), "X1", 2),
    (Fault::Trace(TraceError::Header), "X2", 2),
    (Fault::Trace(TraceError::Record), "X3", 2),
    (Fault::Trace(TraceError::Trailing), "X4", 2),
    (Fault::Trace(TraceError::Link), "X5", 3),
    (Fault::Stalled(0), "X7 step 0", 2),
    (Fault::Stalled(4_194_303), "X7 step 4194303", 2),
    (Fault::Size, "K1", 2),
    (Fault::Budget, "budget", 4),
    (Fault::Full, "L2", 4),
    (Fault::Loan, "L4", 4),
    (Fault::Start, "Start", 4),
    (Fault::States, "states", 4),
    (Fault::Alone, "alone", 4),
    (Fault::Link, "link", 3),
    (Fault::Memory, "memory", 4),
];

#[test]
fn each_is_reported_and_explained(rt: HostRuntime) -> Result<(), Fail> {
    let alloc = rt.alloc();
    let topics = all_topics();
    for (fault, text, status) in REPORTS {
        let mut err = Vec::new(alloc);
        assert_same!(rt; report_fault(fault, &mut err), status, text);
        let mut line = Vec::new(alloc);
        line.extend_from_slice(b"ultra: ")?;
        line.extend_from_slice(text.as_bytes())?;
        line.push(b'\n')?;
        assert_same!(rt; err.as_slice(), line.as_slice(), text);
        let shown = format!(in alloc; "{fault}")?;
        assert_same!(rt; shown.as_str(), text);
        let topic = topics.topic_asked(fault.code()).ok_or("no topic")?;
        assert_same!(rt; topic.name, fault.code());
        let topic = topics.topic_asked(text).ok_or("no topic")?;
        assert_same!(rt; topic.name, fault.code(), text);
    }
    Ok(())
}
