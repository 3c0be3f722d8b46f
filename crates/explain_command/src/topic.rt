//! Topics, and which one a text asks for.

ghost use Rattle.std.specs.Prelude.{◌≡◌, find, option_map};
ghost use Rattle.explain_command.specs.Topics.{is_coded, is_named, topic_asked};

use crate::asking::{is_coded, is_named, without};

/// A code, the number of a fault, an error of the debugger, or a page of help.
#[derive(Clone, Copy, Debug, PartialEq, Eq, Drop)]
pub struct Topic {
    /// The word that asks for it, also with what `ultra` prints around it.
    pub name: &'static str,
    /// What it means, in one line.
    pub meaning: &'static str,
    /// The rest, in whole lines: where it is reported, what usually causes it, and what to do.
    pub advice: &'static str,
}

/// Topics by their kinds. If two topics have the same name, the first is explained.
#[derive(Debug, Drop)]
pub struct Topics {
    /// Codes of inputs and outputs, which follow `ultra: ` on standard error.
    pub codes: &'static [Topic],
    /// Other words that follow `ultra: `: why a command gave up.
    pub ends: &'static [Topic],
    /// The numbers of the faults that stop a processor, as in a report.
    pub faults: &'static [Topic],
    /// The errors with which a debugger's lines are answered.
    pub replies: &'static [Topic],
    /// Pages of help.
    pub pages: &'static [Topic],
}

impl Topics {
    /// The topic that a text asks for, as `ultra` prints it or by its name alone, in upper or lower case.
    pub fn topic_asked(&self, text: &str) -> Option<&Topic>
        ensures { option_map (λ t. t.now) result ≡ topic_asked self.now text.now }
    {
        let text = text.as_bytes();
        let printed = without(b"ultra: ", text);
        if let Some(topic) = first_coded(self.codes, printed) {
            return Some(topic);
        }
        if let Some(topic) = first_named(self.ends, printed) {
            return Some(topic);
        }
        if let Some(topic) = first_named(self.faults, without(b"fault ", text)) {
            return Some(topic);
        }
        if let Some(topic) = first_named(self.replies, text) {
            return Some(topic);
        }
        first_named(self.pages, text)
    }
}

/// The first of these topics of which the text is the name.
fn first_named<'a>(topics: &'a [Topic], text: &[u8]) -> Option<&'a Topic>
    ensures { option_map (λ t. t.now) result ≡ find (λ t. is_named text.now t.name.now) topics.now }
{
    topics.iter().find(|topic| is_named(text, topic.name))
}

/// The first of these topics of which the text is the name, and what is printed after a code.
fn first_coded<'a>(topics: &'a [Topic], text: &[u8]) -> Option<&'a Topic>
    ensures { option_map (λ t. t.now) result ≡ find (λ t. is_coded text.now t.name.now) topics.now }
{
    topics.iter().find(|topic| is_coded(text, topic.name))
}
