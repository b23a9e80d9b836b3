//! Places in a source, and why a text can't be lowered.

ghost use Rattle.std.specs.Prelude.{◌≡◌};
ghost use Rattle.fortran_tree.specs.declared.error.LowerError.TheVariants.{NoMemory, Refused};

use std::alloc::{AllocError, AllocFailed};
use thiserror::Error;

/// A place in a source: its line and its column, both counted from 1.
#[derive(Clone, Copy)]
pub struct Place {
    pub line: u32,
    pub column: u32,
}

impl Place {
    /// The refusal of what stands here.
    pub fn refused(self, reason: Reason) -> LowerError
        ensures { result ≡ Refused self.line self.column reason }
    {
        LowerError::Refused {
            line: self.line,
            column: self.column,
            reason,
        }
    }
}

/// A rule of lowering by which a program gets more statements.
#[derive(Clone, Copy, Debug, PartialEq, Eq, Error)]
pub enum Rule {
    #[error("END DO and DO WHILE")]
    Loops,
    #[error("implied DO")]
    Lists,
    #[error("BLOCK DATA")]
    BlockData,
    #[error("calls of functions")]
    Functions,
    #[error("arguments that are no names")]
    Arguments,
    #[error("copies of units for arrays of other bounds")]
    Bounds,
}

/// Why a text can't be lowered, as a sentence.
#[derive(Clone, Copy, Debug, Error)]
pub enum Reason {
    #[error("a character that is none of Fortran's")]
    BadCharacter,
    #[error("columns 1 to 5 of a statement hold a label of digits, or blanks")]
    BadLabel,
    #[error("a continuation line with no statement above it")]
    StrayContinuation,
    #[error("a character constant that is not closed")]
    OpenText,
    #[error("a bracket that has no partner")]
    Brackets,
    #[error("a word between points that is no operator and no logical constant")]
    BadOperator,
    #[error("a real constant; numbers are integers here")]
    RealConstant,
    #[error("a constant above 2147483647")]
    GreatConstant,
    #[error("a statement that is not understood")]
    NotUnderstood,
    #[error("{0} is not supported; programs compute with integers and logicals, read by READ * and write by PRINT *")]
    NotSupported(&'static str),
    #[error("input and output is PRINT *, WRITE (*,*), READ * or READ (*,*): no FORMAT, no other unit, no END=")]
    Format,
    #[error("EXIT and CYCLE are no statements of Fortran 77; write GO TO a label")]
    Leaving,
    #[error("a length other than *4; integers and logicals have 32 bits")]
    Length,
    #[error("the text does not end with END")]
    NoEnd,
    #[error("a statement that needs more than 19 continuation lines")]
    LongStatement,
    #[error("a statement that needs more than 19 continuation lines once its constants, lists and functions are written out")]
    LongLowered,
    #[error("a list that needs more than 19 continuation lines once its implied DO and arrays are written out")]
    LongList,
    #[error("a statement function that needs more than 19 continuation lines once it is written out")]
    LongFunction,
    #[error("END DO with no DO that is open")]
    StrayEndDo,
    #[error("END DO without the label at which its DO ends")]
    OtherEnd,
    #[error("a DO WHILE that ends at the same statement as the DO around it")]
    SharedEnd,
    #[error("a DO with no END DO")]
    OpenDo,
    #[error("not enough labels are free")]
    Labels,
    #[error("not enough names are free")]
    Names,
    #[error("a constant was expected here")]
    NotConstant,
    #[error("a constant that does not fit in 32 bits")]
    Overflow,
    #[error("a name that has a constant already")]
    ConstantTwice,
    #[error("a constant can't get a value")]
    ConstantGiven,
    #[error("a constant of another kind than its name")]
    ConstantKind,
    #[error("a name that is real, or has no kind; declare it INTEGER or LOGICAL")]
    RealName,
    #[error("a declaration that stands below the statements above which it has to stand")]
    LateDeclaration,
    #[error("a unit that begins above the END of the one before it")]
    UnitInside,
    #[error("an element passed to an array; pass the whole array")]
    ElementToArray,
    #[error("a call with another number of arguments than the unit has")]
    ArgumentCount,
    #[error("the bounds of the array that is passed do not agree with those of the dummy")]
    Bounds,
    #[error("an array whose bounds are not known here")]
    OpenBounds,
    #[error("a line with a number of items that is not known before it runs; write each by a PRINT of its own, in a DO")]
    OpenItems,
    #[error("an implied DO whose variable is in COMMON or EQUIVALENCE; take another variable")]
    SharedVariable,
    #[error("a function in the items of READ")]
    FunctionInRead,
    #[error("a FUNCTION in a statement function; write a FUNCTION in its place")]
    FunctionInside,
    #[error("a function whose kind here is another one than in its unit; declare it")]
    FunctionKind,
    #[error("a function that the text does not have, and that is no intrinsic one here")]
    NoFunction,
    #[error("a unit that calls itself")]
    CallsItself,
    #[error("a function with the name of an intrinsic one")]
    IntrinsicName,
    #[error("an element of what is no array")]
    NoArray,
    #[error("a statement that BLOCK DATA can't have, or DATA of a name that is in none of its blocks")]
    BlockData,
    #[error("a block whose names have other kinds or bounds in the main program")]
    BlockBounds,
    #[error("a unit with SAVE or DATA that is called with arrays of several bounds")]
    KeptValues,
    #[error("a second main program")]
    SecondMain,
    #[error("no main program")]
    NoMain,
    #[error("a program of more than 4,000 statements")]
    TooMany,
    /// By the rule that added most of them.
    #[error("a program that grows past 4,000 statements, most of all by {0}")]
    Grown(Rule),
    #[error("a unit with the name of another one")]
    UnitTwice,
    /// What it became is no program of the language, by a sentence of docs/LANGUAGE.md.
    #[error("{0}")]
    Language(&'static str),
}

/// Why a text has no lowered form.
#[derive(Debug, Drop, Error)]
pub enum LowerError {
    /// What stands at the place has no lowered form.
    #[error("line {line}, column {column}: {reason}")]
    Refused {
        line: u32,
        column: u32,
        reason: Reason,
    },
    /// There was no memory.
    #[error("out of memory")]
    NoMemory,
}

impl From<AllocError> for LowerError {
    ghost from_gives = { λ _ e. e ≡ NoMemory };

    fn from(_refused: AllocError) -> LowerError {
        LowerError::NoMemory
    }
}

impl<T: Drop> From<AllocFailed<T>> for LowerError {
    ghost from_gives = { λ _ e. e ≡ NoMemory };

    fn from(_refused: AllocFailed<T>) -> LowerError {
        LowerError::NoMemory
    }
}
