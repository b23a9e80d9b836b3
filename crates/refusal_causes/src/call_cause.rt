//! What is wrong between units, with the names of both.

ghost use Rattle.std.specs.Prelude.{◌≡◌, Some};
ghost use Rattle.refusal_causes.specs.Causes.{block_instead, block_wrong, call_instead, call_wrong, name_instead, name_wrong};

use std::fmt;

/// Why the name of a subroutine is wrong.
#[derive(Clone, Copy)]
pub enum NameCause<'a> {
    /// A SUBROUTINE has the name of one above.
    SubroutineTwice { name: &'a str },
    /// A CALL names no SUBROUTINE of the text.
    NoSubroutine { name: &'a str },
    /// A subroutine calls itself, through any number of calls.
    Recursion { name: &'a str },
}

impl fmt::Display for NameCause<'_> {
    ghost output = { λ c. Some (name_wrong c) };

    fn fmt<W: fmt::Write>(&self, f: &mut fmt::Formatter<W>) -> fmt::Result {
        match *self {
            NameCause::SubroutineTwice { name } => {
                write!(f, "a SUBROUTINE above has the name {name} too")
            }
            NameCause::NoSubroutine { name } => write!(f, "the text has no SUBROUTINE {name}"),
            NameCause::Recursion { name } => {
                write!(f, "{name} calls itself, at once or through others")
            }
        }
    }
}

const SUBROUTINE_TWICE: &str = "Give one of them another name.";

const NO_SUBROUTINE: &str =
    "Put the subroutine behind the main program's END: each text stands alone.";

const RECURSION: &str = "Write it as a loop, with an array in place of a stack.";

impl NameCause<'_> {
    /// What to write instead.
    pub fn instead(&self) -> &'static str
        ensures { result.now ≡ name_instead self.now }
    {
        match *self {
            NameCause::SubroutineTwice { .. } => SUBROUTINE_TWICE,
            NameCause::NoSubroutine { .. } => NO_SUBROUTINE,
            NameCause::Recursion { .. } => RECURSION,
        }
    }
}

/// Why a CALL doesn't fit its SUBROUTINE, or the dummies of one are wrong.
#[derive(Clone, Copy)]
pub enum CallCause<'a> {
    /// A CALL has another number of arguments than its subroutine of dummies.
    ArgumentCount {
        name: &'a str,
        arguments: usize,
        dummies: usize,
    },
    /// An argument is neither integer nor logical.
    RealArgument {
        argument: &'a str,
    },
    /// One of an argument and its dummy isn't of the kind of the other.
    ArgumentKind {
        argument: &'a str,
        dummy: &'a str,
    },
    /// An argument and its dummy have other numbers of dimensions, or other bounds.
    ArgumentBounds {
        argument: &'a str,
        dummy: &'a str,
    },
    /// A dummy stands twice in its SUBROUTINE.
    DummyTwice {
        dummy: &'a str,
    },
    /// A dummy stands in COMMON, EQUIVALENCE or DATA, at this line.
    DummyStored {
        dummy: &'a str,
        line: u32,
    },
}

impl fmt::Display for CallCause<'_> {
    ghost output = { λ c. Some (call_wrong c) };

    fn fmt<W: fmt::Write>(&self, f: &mut fmt::Formatter<W>) -> fmt::Result {
        match *self {
            CallCause::ArgumentCount {
                name,
                arguments,
                dummies,
            } => write!(
                f,
                "arguments of this CALL: {arguments}; dummies of {name}: {dummies}"
            ),
            CallCause::RealArgument { argument } => {
                write!(f, "the argument {argument} is neither integer nor logical")
            }
            CallCause::ArgumentKind { argument, dummy } => {
                write!(
                    f,
                    "the argument {argument} and the dummy {dummy} differ in type"
                )
            }
            CallCause::ArgumentBounds { argument, dummy } => {
                write!(
                    f,
                    "the argument {argument} and the dummy {dummy} differ in their bounds"
                )
            }
            CallCause::DummyTwice { dummy } => write!(f, "the dummy {dummy} stands twice"),
            CallCause::DummyStored { dummy, line } => write!(
                f,
                "the dummy {dummy} stands in COMMON, EQUIVALENCE or DATA, at line {line}"
            ),
        }
    }
}

const ARGUMENT_COUNT: &str = "Give one argument for each dummy.";

const REAL_ARGUMENT: &str =
    "Declare it by INTEGER or LOGICAL: a name is real unless it begins with I to N.";

const ARGUMENT_KIND: &str =
    "Declare both INTEGER or both LOGICAL: a name is real unless it begins with I to N.";

const ARGUMENT_BOUNDS: &str =
    "Declare both with the same bounds, as numbers, or both without; an element is no argument.";

const DUMMY_TWICE: &str = "Give each dummy a name of its own.";

const DUMMY_STORED: &str =
    "Take it out of there, or out of the list of dummies: a dummy has no words of its own.";

impl CallCause<'_> {
    /// What to write instead.
    pub fn instead(&self) -> &'static str
        ensures { result.now ≡ call_instead self.now }
    {
        match *self {
            CallCause::ArgumentCount { .. } => ARGUMENT_COUNT,
            CallCause::RealArgument { .. } => REAL_ARGUMENT,
            CallCause::ArgumentKind { .. } => ARGUMENT_KIND,
            CallCause::ArgumentBounds { .. } => ARGUMENT_BOUNDS,
            CallCause::DummyTwice { .. } => DUMMY_TWICE,
            CallCause::DummyStored { .. } => DUMMY_STORED,
        }
    }
}

/// Why a block of COMMON differs from the same block in the unit that begins at a line. Blank COMMON has an empty name.
#[derive(Clone, Copy)]
pub enum BlockCause<'a> {
    /// It has another number of names.
    BlockLength {
        block: &'a str,
        line: u32,
        here: usize,
        there: usize,
    },
    /// A name has another kind or other bounds than the name at its place there.
    BlockMember {
        block: &'a str,
        line: u32,
        here: &'a str,
        there: &'a str,
    },
}

impl fmt::Display for BlockCause<'_> {
    ghost output = { λ c. Some (block_wrong c) };

    fn fmt<W: fmt::Write>(&self, f: &mut fmt::Formatter<W>) -> fmt::Result {
        match *self {
            BlockCause::BlockLength {
                block,
                line,
                here,
                there,
            } => write!(
                f,
                "names of COMMON /{block}/ in this unit: {here}; in that of line {line}: {there}"
            ),
            BlockCause::BlockMember {
                block,
                line,
                here,
                there,
            } => write!(
                f,
                "{here} of COMMON /{block}/ differs in type or bounds from {there} of the unit of line {line}"
            ),
        }
    }
}

const BLOCK_LENGTH: &str =
    "Write the block with as many names in each unit; what isn't used needs a name too.";

const BLOCK_MEMBER: &str =
    "Write the block with the same types and bounds in each unit; names may differ.";

impl BlockCause<'_> {
    /// What to write instead.
    pub fn instead(&self) -> &'static str
        ensures { result.now ≡ block_instead self.now }
    {
        match *self {
            BlockCause::BlockLength { .. } => BLOCK_LENGTH,
            BlockCause::BlockMember { .. } => BLOCK_MEMBER,
        }
    }
}
