//! Laws of formats.

ghost use Rattle.line_formats.specs.Lines.{FeedingGoesOn};
ghost use Rattle.line_formats.specs.Names.{LinesStay};

/// Feeding a text in two parts is feeding it as a whole.
pub fn feeding_goes_on()
    ensures { FeedingGoesOn }
{}

/// With no place for any address, and with instructions as they are, each line goes as it is.
pub fn lines_stay_without_names()
    ensures { LinesStay }
{}
