//! Parts of texts.

ghost use Rattle.std.specs.Prelude.{Some};
ghost use Rattle.dependence_texts.specs.Parts.{head_text, line_text};

use std::fmt;

/// How a dependence begins in JSON.
#[derive(Clone, Copy)]
pub struct Head<'a> {
    /// The line of the statement that comes first.
    pub from: u32,
    /// The line of the one that depends on it.
    pub to: u32,
    /// What the dependence is.
    pub kind: &'a str,
}

impl fmt::Display for Head<'_> {
    ghost output = { λ h. Some (head_text h) };

    fn fmt<W: fmt::Write>(&self, f: &mut fmt::Formatter<W>) -> fmt::Result {
        let Head { from, to, kind } = *self;
        write!(
            f,
            "{{\"from\":{from},\"to\":{to},\"kind\":\"{kind}\",\"by\":["
        )
    }
}

/// That a statement waits for another.
#[derive(Clone, Copy)]
pub struct WaitLine<'a> {
    /// The line of the statement that waits.
    pub who: u32,
    /// The line of the other one.
    pub whom: u32,
    /// How the line of text ends.
    pub end: &'a str,
}

impl fmt::Display for WaitLine<'_> {
    ghost output = { λ w. Some (line_text w) };

    fn fmt<W: fmt::Write>(&self, f: &mut fmt::Formatter<W>) -> fmt::Result {
        let WaitLine { who, whom, end } = *self;
        write!(f, "{who} WAITS FOR {whom}{end}")
    }
}
