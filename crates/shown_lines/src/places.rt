//! Places of a file, and what is shown there. What is written is exact, by `place_text` and `shown_text` of specs/.

ghost use Rattle.std.specs.Prelude.{Some};
ghost use Rattle.shown_lines.specs.Places.{place_text, shown_text};

use std::fmt;

/// A place of a file: `FILE:LINE` or `FILE:LINE:COLUMN`. Lines and columns are counted from 1.
#[derive(Clone, Copy)]
pub struct Place<'a> {
    pub file: &'a str,
    pub line: u32,
    pub column: Option<u32>,
}

impl fmt::Display for Place<'_> {
    ghost output = { λ place. Some (place_text place) };

    fn fmt<W: fmt::Write>(&self, f: &mut fmt::Formatter<W>) -> fmt::Result {
        let Place { file, line, column } = *self;
        match column {
            Some(column) => write!(f, "{file}:{line}:{column}"),
            None => write!(f, "{file}:{line}"),
        }
    }
}

/// A line of a text behind a bar, and the line with a caret below it, which may be empty.
#[derive(Clone, Copy)]
pub struct Shown<'a> {
    pub line: &'a str,
    pub caret: &'a str,
}

impl fmt::Display for Shown<'_> {
    ghost output = { λ shown. Some (shown_text shown) };

    fn fmt<W: fmt::Write>(&self, f: &mut fmt::Formatter<W>) -> fmt::Result {
        let Shown { line, caret } = *self;
        write!(f, "  |{line}\n{caret}")
    }
}
