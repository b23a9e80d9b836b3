use df_sequence::NoMemory;
use layout_rules::LayoutEnd;
use thiserror::Error;

/// Why units make no program. Each number is the line of the statement at fault. The first refusal in this order is told,
/// NoMemory aside, with the lowest line that has it (ANSI X3.9-1978, sections 3.5, 8.3, 15.6, 15.8 and 15.9).
#[derive(Clone, Copy, Debug, PartialEq, Eq, Error)]
pub enum SubEnd {
    /// A SUBROUTINE follows no END, or another statement follows one, or RETURN stands in the main program.
    #[error("line {0}: the statement stands in the wrong order")]
    UnitOrder(u32),
    /// The first unit that is refused by itself, with SUBROUTINE as PROGRAM, CALL as CONTINUE and RETURN as STOP.
    #[error("a unit: {0}")]
    Layout(LayoutEnd),
    /// Another SUBROUTINE above has the same name.
    #[error("line {0}: the subroutine stands twice")]
    SubTwice(u32),
    /// A CALL of a name that no SUBROUTINE has.
    #[error("line {0}: there is no such subroutine")]
    NoSub(u32),
    /// The arguments of a CALL are others than the dummies of its subroutine in number, kind or bounds, or a dummy stands
    /// twice, or in COMMON, EQUIVALENCE or DATA.
    #[error("line {0}: arguments and dummies are at odds")]
    BadCall(u32),
    /// A block has other names, by number, kind or bounds, than in the first unit that has it. The line is that of the
    /// unit's first statement.
    #[error("line {0}: a common block is at odds with an earlier unit")]
    BadBlock(u32),
    /// A subroutine calls itself, through any number of calls. The line is that of its SUBROUTINE.
    #[error("line {0}: the subroutine calls itself")]
    Recursion(u32),
    /// The expansion has more than 4,000 statements. The line is that of the main program's END.
    #[error("line {0}: more than 4,000 statements")]
    TooManyStatements(u32),
    /// A name above Y99999 would be needed. The line is that of the main program's END.
    #[error("line {0}: too many names")]
    TooManyNames(u32),
    /// There was no memory.
    #[error("out of memory")]
    NoMemory,
}

impl From<NoMemory> for SubEnd {
    ghost use Rattle.std.specs.Prelude.{◌≡◌};
    ghost use Rattle.program_units.specs.declared.sub_end.SubEnd.TheVariants.{NoMemory};

    ghost from_gives = { λ _ e. e ≡ NoMemory };

    fn from(_refused: NoMemory) -> SubEnd {
        SubEnd::NoMemory
    }
}
