//! What is wrong with a text, with the names and numbers of the text, in a sentence each.

ghost use Rattle.std.specs.Prelude.{◌≡◌, Some};
ghost use Rattle.refusal_causes.specs.Causes.{instead as instead_of, wrong};

use crate::call_cause::{BlockCause, CallCause, NameCause};
use crate::label_cause::LabelCause;
use form_advice::Advice;
use kind_causes::KindCause;
use std::fmt;

/// Why a text is no program. Lines and columns are counted from 1.
#[derive(Clone, Copy)]
pub enum Cause<'a> {
    /// A rule without names.
    Rule(Advice),
    /// The name of a subroutine.
    Name(NameCause<'a>),
    /// A CALL, or the dummies of a SUBROUTINE.
    Call(CallCause<'a>),
    /// A block of COMMON.
    Block(BlockCause<'a>),
    /// A kind, or a number of subscripts or arguments.
    Kind(KindCause<'a>),
    /// A label.
    Label(LabelCause),
}

// What is wrong.
impl fmt::Display for Cause<'_> {
    ghost output = { λ c. Some (wrong c) };

    fn fmt<W: fmt::Write>(&self, f: &mut fmt::Formatter<W>) -> fmt::Result {
        match *self {
            Cause::Rule(advice) => f.write_str(advice.wrong),
            Cause::Name(cause) => write!(f, "{cause}"),
            Cause::Call(cause) => write!(f, "{cause}"),
            Cause::Block(cause) => write!(f, "{cause}"),
            Cause::Kind(cause) => write!(f, "{cause}"),
            Cause::Label(cause) => write!(f, "{cause}"),
        }
    }
}

impl Cause<'_> {
    /// What to write instead.
    pub fn instead(&self) -> &'static str
        ensures { result.now ≡ instead_of self.now }
    {
        match *self {
            Cause::Rule(advice) => advice.instead,
            Cause::Name(cause) => cause.instead(),
            Cause::Call(cause) => cause.instead(),
            Cause::Block(cause) => cause.instead(),
            Cause::Kind(cause) => cause.instead(),
            Cause::Label(cause) => cause.instead(),
        }
    }
}
