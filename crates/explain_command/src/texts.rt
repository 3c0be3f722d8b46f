//! The texts of topics.

ghost use Rattle.std.specs.Prelude.{◌≡◌, ◌++◌, IfOk, OnOk, string_bytes};
ghost use Rattle.explain_command.specs.Topics.{line_of, lines_of, list_of, text_of};

use crate::topic::{Topic, Topics};
use std::alloc::{AllocError, Global};

/// The text of a topic.
pub(crate) fn topic_text(alloc: Global, topic: &Topic) -> Result<String, AllocError>
    ensures { IfOk result (λ text. string_bytes text ≡ text_of topic.now) }
{
    let mut text = String::new(alloc);
    push_line(&mut text, topic)?;
    text.push('\n')?;
    text.push_str(topic.advice)?;
    Ok(text)
}

/// A line for each topic, below a heading for each kind.
pub(crate) fn list_text(alloc: Global, topics: &Topics) -> Result<String, AllocError>
    ensures { IfOk result (λ text. string_bytes text ≡ list_of topics.now) }
{
    let mut text = String::new(alloc);
    text.push_str("Codes, which follow `ultra:` on standard error\n")?;
    push_lines(&mut text, topics.codes)?;
    push_lines(&mut text, topics.ends)?;
    text.push_str("\nNumbers of faults, as `fault 4` in a report\n")?;
    push_lines(&mut text, topics.faults)?;
    text.push_str("\nErrors of the debugger, which answer a line\n")?;
    push_lines(&mut text, topics.replies)?;
    text.push_str("\nPages\n")?;
    push_lines(&mut text, topics.pages)?;
    Ok(text)
}

/// Appends the line of each topic.
fn push_lines(text: &mut String, topics: &[Topic]) -> Result<(), AllocError>
    ensures { OnOk result (string_bytes text.new ≡ string_bytes text.old ++ lines_of topics.now) }
{
    for topic in topics {
        push_line(text, topic)?;
    }
    Ok(())
}

/// Appends the line of a topic.
fn push_line(text: &mut String, topic: &Topic) -> Result<(), AllocError>
    ensures { OnOk result (string_bytes text.new ≡ string_bytes text.old ++ line_of topic.now) }
{
    text.push_str(topic.name)?;
    text.push_str(": ")?;
    text.push_str(topic.meaning)?;
    text.push('\n')
}
