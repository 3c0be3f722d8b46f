//! A law of texts: the contract of a function that does nothing.

ghost use Rattle.trace_file.specs.Traces.{TraceContents};
ghost use Rattle.trace_text.specs.Laws.{IsReadBack};

/// The text of each trace that a file can spell says this trace.
pub fn texts_are_read_back()
    ensures { (t : TraceContents) → IsReadBack t }
{
    // That numerals are read as their numbers.
    asm_lines::laws::numerals_are_read_alike();
}
