//! The lines of printed statements.

ghost use Rattle.read_back.specs.ReadBack.{PrintedLinesAreRead};

/// Statements on their lines are read as one statement each (ANSI X3.9-1978, section 3): at most 4,000 of them, each of which lines
/// can have, and the last of which is END. Each has its label, the number of its first line, and its text without blanks outside of
/// character constants.
pub fn printed_lines_are_read()
    ensures { PrintedLinesAreRead }
{}
