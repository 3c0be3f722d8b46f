//! The lines of the processors that can be exchanged.

ghost use Rattle.std.specs.Prelude.{◌≡◌, ◌++◌, ◌<◌, length, OnOk, string_bytes};
ghost use Rattle.std.specs.Fmt.{decimal};
ghost use Rattle.observed_results.specs.Lines.{class_at, class_line, class_lines, class_text, is_of, is_of_before};
ghost use Rattle.observed_results.specs.Lines.{member_text, members_of, members_text, separator};

use std::alloc::AllocError;
use std::fmt::Write;

/// The class of a processor. Past the last processor, a class that none has.
fn class_at(classes: &[u8], processor: usize) -> u8
    ensures { result ≡ class_at classes.now processor }
{
    match classes.get(processor) {
        Some(class) => *class,
        None => 64,
    }
}

/// Appends a line for each class of two or more processors.
pub(crate) fn push_classes(text: &mut String, classes: &[u8]) -> Result<(), AllocError>
    ensures { OnOk result (string_bytes text.new ≡ string_bytes text.old
        ++ class_lines classes.now (length classes.now)) }
{
    for class in 0..classes.len() {
        push_class(text, classes, class)?;
    }
    Ok(())
}

/// Appends the line of a class, if it has two or more processors.
fn push_class(text: &mut String, classes: &[u8], class: usize) -> Result<(), AllocError>
    ensures { OnOk result (string_bytes text.new ≡ string_bytes text.old ++ class_line classes.now class) }
{
    if members_of(classes, class) < 2 {
        return Ok(());
    }
    push_class_text(text, classes, class)
}

/// Appends the line of a class.
fn push_class_text(text: &mut String, classes: &[u8], class: usize) -> Result<(), AllocError>
    ensures { OnOk result (string_bytes text.new ≡ string_bytes text.old ++ class_text classes.now class) }
{
    text.push_str("processors ")?;
    push_members(text, classes, class)?;
    text.push_str(" can be exchanged\n")?;
    Ok(())
}

/// How many processors a class has.
fn members_of(classes: &[u8], class: usize) -> usize
    ensures { result ≡ members_of classes.now class (length classes.now) }
{
    let mut members = 0;
    for p in 0..classes.len() {
        if is_of(classes, class, p) {
            members += 1;
        }
    }
    members
}

/// Whether a processor belongs to a class.
fn is_of(classes: &[u8], class: usize, processor: usize) -> bool
    ensures { result ≡ is_of classes.now class processor }
{
    usize::from(class_at(classes, processor)) == class
}

/// Whether the processor before this one belongs to a class.
fn is_of_before(classes: &[u8], class: usize, processor: usize) -> bool
    ensures { result ≡ is_of_before classes.now class processor }
{
    match processor.checked_sub(1) {
        Some(before) => is_of(classes, class, before),
        None => false,
    }
}

/// Appends the processors of a class.
fn push_members(text: &mut String, classes: &[u8], class: usize) -> Result<(), AllocError>
    ensures { OnOk result (string_bytes text.new ≡ string_bytes text.old
        ++ members_text classes.now class (length classes.now)) }
{
    for p in 0..classes.len() {
        push_member(text, classes, class, p)?;
    }
    Ok(())
}

/// Appends a processor of the class, if it begins or ends a range of consecutive processors of the class.
fn push_member(
    text: &mut String,
    classes: &[u8],
    class: usize,
    processor: usize,
) -> Result<(), AllocError>
    requires { processor < length classes.now }
    ensures { OnOk result (string_bytes text.new ≡ string_bytes text.old ++ member_text classes.now class processor) }
{
    if !is_of(classes, class, processor) {
        return Ok(());
    }
    if !is_of_before(classes, class, processor) {
        return push_first(text, class, processor);
    }
    if is_of(classes, class, processor + 1) {
        return Ok(());
    }
    write!(text, " to {processor}")
}

/// Appends a processor, after a comma if it is not the first of its class.
fn push_first(text: &mut String, class: usize, processor: usize) -> Result<(), AllocError>
    ensures { OnOk result (string_bytes text.new ≡ string_bytes text.old ++ separator class processor
        ++ decimal processor) }
{
    if processor == class {
        write!(text, "{processor}")
    } else {
        write!(text, ", {processor}")
    }
}
