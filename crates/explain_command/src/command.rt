//! The command `ultra explain`.

ghost use Rattle.std.specs.Prelude.{◌≡◌, ◌≢◌, true, false, map, option_map, string_bytes, IfOk};
ghost use Rattle.command_io.specs.FaultTexts.{AppendsOrPart, IsReported};
ghost use Rattle.command_io.specs.Printing.{Prints, ReportsFault};
ghost use Rattle.explain_command.specs.Explaining.{IsExplanation, IsNoExplanation, IsUnknown, IsUnknownReported};
ghost use Rattle.explain_command.specs.Explaining.{text_asked, unknown_text};

use crate::texts::{list_text, topic_text};
use crate::topic::Topics;
use command_io::{DONE, Fault, REFUSED, print, report_fault, write_error_parts};
use link::LinkWrite;
use std::alloc::{AllocError, Global};
use std::io::Write;

/// Prints the text of the topic that the words ask for, or a list of all topics if there are no words. Returns the exit
/// status: 0 if all of it is printed, 2 if there is no such topic, else that of the fault reported on standard error.
/// The whole text is made before its first byte is printed.
pub fn explain_command<W: LinkWrite, E: Write>(
    alloc: Global,
    topics: &Topics,
    words: &[&str],
    out: &mut W,
    err: &mut E,
) -> u8
    requires works { W.has_failed out.old ≡ false }
    ensures explained { result ≡ 0 →
        Prints (IsExplanation topics.now (text_asked (map (λ w. w.now) words.now))) (W.contents out.old)
        (W.contents out.new) }
    ensures unknown { result ≡ 2 → IsUnknown topics.now (text_asked (map (λ w. w.now) words.now)) }
    ensures unprinted { result ≡ 2 → out.new ≡ out.old }
    ensures reported { result ≡ 2 →
        IsUnknownReported (text_asked (map (λ w. w.now) words.now)) (E.contents err.old) (E.contents err.new) }
    ensures fault { result ≢ 0 → result ≢ 2 → ReportsFault W.has_failed Fault.Link ⊥
        (IsNoExplanation topics.now (text_asked (map (λ w. w.now) words.now)) (W.contents out.old) (W.contents out.new))
        (IsReported (E.contents err.old) (E.contents err.new)) out.old out.new result }
    ensures failed { W.has_failed out.new ≡ true → result ≡ 3 }
    ensures quiet { result ≡ 0 → err.new ≡ err.old }
{
    match text_asked(alloc, words) {
        Ok(None) => explain(alloc, topics, None, out, err),
        Ok(Some(text)) => explain(alloc, topics, Some(text.as_str()), out, err),
        Err(_) => report_fault(Fault::Memory, err),
    }
}

/// The text that the words ask for, if there are words: they stand in it with a blank between them.
fn text_asked(alloc: Global, words: &[&str]) -> Result<Option<String>, AllocError>
    ensures { IfOk result (λ text. option_map string_bytes text ≡ text_asked (map (λ w. w.now) words.now)) }
{
    match words {
        [] => Ok(None),
        _ => Ok(Some(words.join(alloc, " ")?)),
    }
}

/// Prints the text of the topic that a text asks for, or a list of all topics if there is no text.
fn explain<W: LinkWrite, E: Write>(
    alloc: Global,
    topics: &Topics,
    asked: Option<&str>,
    out: &mut W,
    err: &mut E,
) -> u8
    requires works { W.has_failed out.old ≡ false }
    ensures explained { result ≡ 0 →
        Prints (IsExplanation topics.now (option_map (λ t. t.now) asked.entry)) (W.contents out.old)
        (W.contents out.new) }
    ensures unknown { result ≡ 2 → IsUnknown topics.now (option_map (λ t. t.now) asked.entry) }
    ensures unprinted { result ≡ 2 → out.new ≡ out.old }
    ensures reported { result ≡ 2 →
        IsUnknownReported (option_map (λ t. t.now) asked.entry) (E.contents err.old) (E.contents err.new) }
    ensures fault { result ≢ 0 → result ≢ 2 → ReportsFault W.has_failed Fault.Link ⊥
        (IsNoExplanation topics.now (option_map (λ t. t.now) asked.entry) (W.contents out.old) (W.contents out.new))
        (IsReported (E.contents err.old) (E.contents err.new)) out.old out.new result }
    ensures failed { W.has_failed out.new ≡ true → result ≡ 3 }
    ensures quiet { result ≡ 0 → err.new ≡ err.old }
{
    let text = match asked {
        None => list_text(alloc, topics),
        Some(asked) => match topics.topic_asked(asked) {
            Some(topic) => topic_text(alloc, topic),
            None => return refuse(asked, err),
        },
    };
    let Ok(text) = text else {
        return report_fault(Fault::Memory, err);
    };
    match print(out, text.as_str()) {
        Ok(()) => DONE,
        Err(fault) => report_fault(fault, err),
    }
}

/// Reports that there is no such topic, in the form of command-line errors.
#[tactic(auto, unfolding(crate::specs::Explaining::unknown_text))]
fn refuse<E: Write>(asked: &str, err: &mut E) -> u8
    ensures status { result ≡ 2 }
    ensures reported { AppendsOrPart (E.contents err.old) (E.contents err.new) (unknown_text asked.now) }
{
    // If standard error fails too, only the exit status reports it.
    write_error_parts(
        &[
            "error: unrecognized code '",
            asked,
            "'\n\n`ultra explain` lists what there is.\n",
        ],
        err,
    );
    REFUSED
}
