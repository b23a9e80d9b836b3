//! What is wrong with kinds, with the names of the text, in a sentence each.

ghost use Rattle.std.specs.Prelude.{◌≡◌, Some};
ghost use Rattle.kind_causes.specs.Causes.{instead as instead_of, wrong};

use form_advice::Advice;
use std::fmt;

/// Why a name, a kind or a number of subscripts or arguments is wrong.
#[derive(Clone, Copy)]
pub enum KindCause<'a> {
    /// A rule without names.
    Rule(Advice),
    /// A name is neither integer nor logical.
    RealName {
        name: &'a str,
    },
    /// A type statement names what has a type already.
    TypedTwice {
        name: &'a str,
    },
    /// An array stands without subscripts.
    WholeArray {
        name: &'a str,
    },
    /// An array has another number of subscripts than dimensions.
    SubscriptCount {
        name: &'a str,
        subscripts: usize,
        dimensions: usize,
    },
    /// A name with a list in brackets is neither an array nor a function of the language.
    NoFunction {
        name: &'a str,
    },
    /// A function of the language has another number of arguments than it takes.
    FunctionArguments {
        name: &'a str,
    },
    /// A value is assigned to a function of the language.
    FunctionAssigned {
        name: &'a str,
    },
    /// A subscript of an array, or an argument of a function, is logical.
    LogicalSubscript {
        name: &'a str,
    },
    /// The variable of a DO is an array or logical.
    LoopVariable {
        name: &'a str,
    },
}

impl fmt::Display for KindCause<'_> {
    ghost output = { λ c. Some (wrong c) };

    fn fmt<W: fmt::Write>(&self, f: &mut fmt::Formatter<W>) -> fmt::Result {
        match *self {
            KindCause::Rule(advice) => f.write_str(advice.wrong),
            KindCause::RealName { name } => write!(f, "{name} is neither integer nor logical"),
            KindCause::TypedTwice { name } => write!(f, "{name} has a type already"),
            KindCause::WholeArray { name } => {
                write!(f, "the array {name} stands without subscripts")
            }
            KindCause::SubscriptCount {
                name,
                subscripts,
                dimensions,
            } => write!(
                f,
                "subscripts of {name} here: {subscripts}; dimensions: {dimensions}"
            ),
            KindCause::NoFunction { name } => {
                write!(
                    f,
                    "{name} is neither an array nor a function of the language"
                )
            }
            KindCause::FunctionArguments { name } => {
                write!(f, "the function {name} takes another number of arguments")
            }
            KindCause::FunctionAssigned { name } => {
                write!(
                    f,
                    "{name} is a function of the language, and takes no value"
                )
            }
            KindCause::LogicalSubscript { name } => {
                write!(f, "a subscript or an argument of {name} is logical")
            }
            KindCause::LoopVariable { name } => {
                write!(f, "{name}, the variable of a DO, is an array or logical")
            }
        }
    }
}

const REAL_NAME: &str =
    "Declare it by INTEGER or LOGICAL, or write IMPLICIT INTEGER(A-Z) in place of any other IMPLICIT: without one a name is real unless it begins with I to N.";

const TYPED_TWICE: &str = "Leave one of the two out.";

const WHOLE_ARRAY: &str =
    "Write an element, as A(1); read, print and assign an array element by element, by a DO.";

const SUBSCRIPT_COUNT: &str = "Write one subscript for each dimension.";

const NO_FUNCTION: &str =
    "Declare its bounds if it is an array; the functions are MOD, ABS, IABS, SIGN, ISIGN, MAX, MAX0, MIN and MIN0, and any other is written as its expression or as a SUBROUTINE.";

const FUNCTION_ARGUMENTS: &str =
    "MOD and SIGN take two arguments, ABS takes one, MAX and MIN take two or more.";

const FUNCTION_ASSIGNED: &str = "Assign to another name, or declare this one as an array.";

const LOGICAL_SUBSCRIPT: &str = "Write an integer there.";

const LOOP_VARIABLE: &str = "Use an integer variable.";

impl KindCause<'_> {
    /// What to write instead.
    pub fn instead(&self) -> &'static str
        ensures { result.now ≡ instead_of self.now }
    {
        match *self {
            KindCause::Rule(advice) => advice.instead,
            KindCause::RealName { .. } => REAL_NAME,
            KindCause::TypedTwice { .. } => TYPED_TWICE,
            KindCause::WholeArray { .. } => WHOLE_ARRAY,
            KindCause::SubscriptCount { .. } => SUBSCRIPT_COUNT,
            KindCause::NoFunction { .. } => NO_FUNCTION,
            KindCause::FunctionArguments { .. } => FUNCTION_ARGUMENTS,
            KindCause::FunctionAssigned { .. } => FUNCTION_ASSIGNED,
            KindCause::LogicalSubscript { .. } => LOGICAL_SUBSCRIPT,
            KindCause::LoopVariable { .. } => LOOP_VARIABLE,
        }
    }
}
