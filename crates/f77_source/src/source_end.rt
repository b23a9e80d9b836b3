use df_sequence::NoMemory;
use thiserror::Error;

/// Why a text is no program. The codes stand in the order in which they are told, except that the first line with one of the
/// first five is refused, and the first statement that is too deep, has no form or has a bad constant.
///
/// A text with SUBROUTINE, CALL or RETURN, or with END more than once, is tested by its units before SubTwice: OutOfOrder is
/// told of the order of units, and then of the first unit that is no program by itself its code, from OutOfOrder to TooManyOps.
/// The codes from SubTwice to TooManyNames are those of such texts alone, and TooManyStatements of the expansion comes before
/// the last of them. The codes from OutOfOrder on are then told of the expansion.
#[derive(Clone, Copy, Debug, PartialEq, Eq)]
pub enum Code {
    /// A line that isn't a comment has a byte outside 32 to 126 in columns 1 to 72.
    BadByte,
    /// Columns 1 to 5 of an initial line aren't a label, or those of a continuation line aren't blank.
    BadLabelField,
    /// A continuation line stands above the first initial line.
    StrayContinuation,
    /// A statement has more than 19 continuation lines.
    TooManyContinuations,
    /// There are more than 4,000 statements. Where the text has no more but its expansion does, the line is that of the main
    /// program's END.
    TooManyStatements,
    /// There is no statement, or the last one isn't END. The line is the one after the last.
    NoEnd,
    /// More than 60 brackets are open at some place of a statement.
    TooDeep,
    /// A statement has none of the forms of the language.
    NoForm,
    /// A constant, a label or a repeat is out of range.
    BadConstant,
    /// A SUBROUTINE has the name of one above.
    SubTwice,
    /// A CALL names no subroutine of the text.
    NoSub,
    /// The arguments of a CALL are others than the dummies of its subroutine in number, kind or bounds, or a dummy stands
    /// twice, or in COMMON, EQUIVALENCE or DATA. The line is that of the CALL, or of the SUBROUTINE.
    BadCall,
    /// A block of COMMON has other names, by number, kind or bounds, than in the first unit that has it. The line is that of
    /// the unit's first statement.
    BadBlock,
    /// A subroutine calls itself, through any number of calls. The line is that of its SUBROUTINE.
    Recursion,
    /// The expansion would need a name above Y99999. The line is that of the main program's END.
    TooManyNames,
    /// A statement stands in the wrong order, in its unit or in the order of units.
    OutOfOrder,
    /// A name is neither integer nor logical.
    RealName,
    /// A kind is wrong, or given twice.
    TypeWrong,
    /// Dimensions, COMMON, EQUIVALENCE or DATA contradict each other.
    LayoutWrong,
    /// A label stands on an earlier statement too.
    LabelTwice,
    /// A label that is used stands on no statement that may bear it.
    LabelMissing,
    /// Loops and blocks of IF aren't nested.
    BadNesting,
    /// A jump leads into a range or an arm.
    JumpInto,
    /// There are more than 262,144 words of storage.
    TooManyWords,
    /// A statement takes too many operations, or there are too many labels in computed GO TO or items of READ.
    TooManyOps,
    /// There are more than 1,023 alias classes.
    TooManyClasses,
}

/// A refusal and the line that it is told at, counted from 1.
#[derive(Clone, Copy, Debug, PartialEq, Eq)]
pub struct Refusal {
    pub line: u32,
    pub code: Code,
}

/// Why no program was read.
#[derive(Clone, Copy, Debug, PartialEq, Eq, Error)]
pub enum SourceEnd {
    /// The text is no program.
    #[error("the text is no program")]
    Refused(Refusal),
    /// There was no memory.
    #[error("out of memory")]
    NoMemory,
}

impl From<NoMemory> for SourceEnd {
    ghost use Rattle.std.specs.Prelude.{◌≡◌};
    ghost use Rattle.f77_source.specs.declared.source_end.SourceEnd.TheVariants.{NoMemory};

    ghost from_gives = { λ _ e. e ≡ NoMemory };

    fn from(_refused: NoMemory) -> SourceEnd {
        SourceEnd::NoMemory
    }
}
