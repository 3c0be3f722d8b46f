//! A law of texts that are written in parts.

ghost use Rattle.link.specs.Transfer.{EndsInTheFirst, EndsInTheRest};

/// If writing a text in two parts ends early, in the first part or in the rest, a beginning of the text was written,
/// and not all of it.
pub fn parts_make_a_beginning()
    ensures first { EndsInTheFirst }
    ensures rest { EndsInTheRest }
{}
