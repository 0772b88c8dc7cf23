//! What holds of the room that lines take. The function does nothing: what it ensures is the law.
ghost use Rattle.finding_lines.specs.Laws.{CutLineFits, NextLineFits};

/// The lines of what is heard in a capture are no more bytes than it has samples (own).
pub fn lines_fit()
    ensures next { NextLineFits }
    ensures cut { CutLineFits }
{}
