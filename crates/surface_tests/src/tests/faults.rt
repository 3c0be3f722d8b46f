//! The text of each fault and of each refusal.

use assembler::{AsmError, AsmFault};
use console_monitor::ConsoleRefusal;
use elf_image::ImageError;
use machine_lock::LockRefusal;
use machine_log::StalledStep;
use machine_steps::NewError;
use processor_threads::RunFault;
use std::alloc::{AllocError, AllocGlobal, Global};
use std::fmt::{Display, Write};
use std::process::Abort;
use test_support::assert_same;
use trace_file::TraceError;

/// The texts of these, each with a space after it.
fn reported<T: Display>(alloc: Global, faults: &[T]) -> Result<String, AllocError> {
    let mut text = String::new(alloc);
    for fault in faults {
        write!(text, "{fault} ")?;
    }
    Ok(text)
}

/// Checks the texts of these.
fn compare<T: Display>(rt: &(impl Abort + AllocGlobal), faults: &[T], wanted: &str) {
    let text = reported(rt.alloc(), faults).expect(rt, "memory");
    assert_same!(rt; text.as_str(), wanted);
}

#[test]
fn faults_of_files(rt: HostRuntime) {
    let images = [
        ImageError::Truncated,
        ImageError::NotExecutable,
        ImageError::UnsupportedHeader,
        ImageError::OutsideInput,
        ImageError::OutsideRegions,
        ImageError::Overlap,
        ImageError::Entry,
        ImageError::TooLong,
        ImageError::Link,
        ImageError::Memory,
    ];
    compare(&rt, &images, "I1 I2 I3 I4 I5 I6 I7 I8 I9 I10 ");
    let traces = [
        TraceError::Truncated,
        TraceError::Header,
        TraceError::Record,
        TraceError::Trailing,
        TraceError::Link,
        TraceError::Memory,
    ];
    compare(&rt, &traces, "X1 X2 X3 X4 X5 X6 ");
    compare(&rt, &[StalledStep { place: 1 }], "X7 step 1 ");
}

#[test]
fn faults_of_texts(rt: HostRuntime) {
    let texts = [
        AsmFault::UnknownWord,
        AsmFault::Form,
        AsmFault::Range,
        AsmFault::LabelTwice,
        AsmFault::LabelMissing,
        AsmFault::SectionFull,
        AsmFault::Memory,
    ];
    compare(&rt, &texts, "A1 A2 A3 A4 A5 A6 A7 ");
    let error = AsmError {
        line: 7,
        fault: AsmFault::Form,
    };
    compare(&rt, &[error], "A2 line 7 ");
}

#[test]
fn faults_of_runs(rt: HostRuntime) {
    compare(&rt, &[NewError::Config, NewError::Memory], "K1 K2 ");
    let refusals = [
        LockRefusal::Memory,
        LockRefusal::Full,
        LockRefusal::Unnamed,
        LockRefusal::NotFree,
    ];
    compare(&rt, &refusals, "L1 L2 L3 L4 ");
    compare(&rt, &[ConsoleRefusal::Memory], "Q1 ");
    let runs = [
        RunFault::Memory,
        RunFault::Full,
        RunFault::Loan,
        RunFault::Console,
        RunFault::Budget,
        RunFault::Start,
        RunFault::Cancelled,
    ];
    compare(&rt, &runs, "memory L2 L4 memory budget Start cancelled ");
}
