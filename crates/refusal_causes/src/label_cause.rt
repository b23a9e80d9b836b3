//! What is wrong with labels, in a sentence each.

ghost use Rattle.std.specs.Prelude.{◌≡◌, Some};
ghost use Rattle.refusal_causes.specs.Causes.{label_instead, label_wrong};

use std::fmt;

/// Why a label is wrong.
#[derive(Clone, Copy)]
pub enum LabelCause {
    /// A label stands on the statement of a line above too.
    LabelTwice { label: u32, line: u32 },
    /// No executable statement of the unit but ELSE and ELSE IF has a label.
    NoLabel { label: u32 },
}

impl fmt::Display for LabelCause {
    ghost output = { λ c. Some (label_wrong c) };

    fn fmt<W: fmt::Write>(&self, f: &mut fmt::Formatter<W>) -> fmt::Result {
        match *self {
            LabelCause::LabelTwice { label, line } => {
                write!(f, "label {label} stands on line {line} too")
            }
            LabelCause::NoLabel { label } => write!(
                f,
                "no statement of this unit that a jump or a DO may name has label {label}"
            ),
        }
    }
}

const LABEL_TWICE: &str = "Give one of them another label.";

const NO_LABEL: &str =
    "Put the label on a statement of this unit, best on a CONTINUE; no label stands on ELSE or ELSE IF.";

impl LabelCause {
    /// What to write instead.
    pub fn instead(&self) -> &'static str
        ensures { result.now ≡ label_instead self.now }
    {
        match *self {
            LabelCause::LabelTwice { .. } => LABEL_TWICE,
            LabelCause::NoLabel { .. } => NO_LABEL,
        }
    }
}
