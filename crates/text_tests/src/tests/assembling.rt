//! Texts with the words, bytes and faults that they must have.
//!
//! The result of assembling a text is compared as a text: its error, or the contents of its sections (`layout_text`).

mod faults;
mod images;
mod values;
mod words;

use assembler::assemble;
use std::alloc::{AllocError, AllocGlobal, Global};
use std::process::Abort;
use test_support::{assert_same, layout_text};

/// Compares what a text assembles to with what is expected.
fn compare(rt: &(impl Abort + AllocGlobal), text: &str, wanted: &str) {
    let found = assembled(rt.alloc(), text).expect(rt, "memory");
    assert_same!(rt; found.as_str(), wanted, text);
}

/// Compares each of these texts with the result beside it.
fn compare_each(rt: &(impl Abort + AllocGlobal), cases: &[(&str, &str)]) {
    for (text, wanted) in cases {
        compare(rt, text, wanted);
    }
}

/// Compares texts that all assemble to the same.
fn compare_all(rt: &(impl Abort + AllocGlobal), texts: &[&str], wanted: &str) {
    for text in texts {
        compare(rt, text, wanted);
    }
}

/// What a text assembles to.
fn assembled(alloc: Global, text: &str) -> Result<String, AllocError> {
    match assemble(alloc, text) {
        Ok(program) => layout_text(alloc, program.layout()),
        Err(error) => format!(in alloc; "{error}"),
    }
}
