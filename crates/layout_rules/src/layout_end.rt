use df_sequence::NoMemory;
use thiserror::Error;

/// Why statements make no program. Each number is the line of the statement at fault. The first refusal in this order is
/// told, NoMemory aside, with the line of the first statement that has it: where lines don't rise, that of LayoutWrong is the
/// one of `storage_line`, and that of TooManyOps the lowest.
#[derive(Clone, Copy, Debug, PartialEq, Eq, Error)]
pub enum LayoutEnd {
    /// A statement stands after one that must follow it, or a second PROGRAM, or anything after END (section 3.5).
    #[error("line {0}: the statement stands in the wrong order")]
    OutOfOrder(u32),
    /// A name is neither integer nor logical (section 4.1.2).
    #[error("line {0}: a name is neither integer nor logical")]
    RealName(u32),
    /// A kind is given twice, or an operand, argument or target is of the wrong kind or shape (sections 5, 6, 8 and 10).
    #[error("line {0}: a kind is wrong")]
    TypeWrong(u32),
    /// Dimensions, COMMON, EQUIVALENCE or DATA contradict each other (sections 5, 8 and 9).
    #[error("line {0}: the layout of storage is wrong")]
    LayoutWrong(u32),
    /// A label stands on an earlier statement too (section 3.4).
    #[error("line {0}: the label stands twice")]
    LabelTwice(u32),
    /// A label that is used stands on no executable statement, or on ELSE or ELSE IF (section 11).
    #[error("line {0}: a label is missing")]
    LabelMissing(u32),
    /// DO loops and blocks of IF aren't nested (sections 11.6 to 11.10).
    #[error("line {0}: loops and blocks are not nested")]
    BadNesting(u32),
    /// A jump leads into the range of a DO or into an arm of an IF (sections 11.8 and 11.10).
    #[error("line {0}: a jump leads into a range or an arm")]
    JumpInto(u32),
    /// There are more than 262,144 words of storage. The line is that of END.
    #[error("line {0}: more than 262,144 words of storage")]
    TooManyWords(u32),
    /// A statement takes more than 500 operations, or there are more than 4,000 labels in computed GO TO, or more than
    /// 4,000 items of READ.
    #[error("line {0}: too many operations, labels or items")]
    TooManyOps(u32),
    /// There was no memory.
    #[error("out of memory")]
    NoMemory,
}

impl From<NoMemory> for LayoutEnd {
    ghost use Rattle.std.specs.Prelude.{◌≡◌};
    ghost use Rattle.layout_rules.specs.declared.layout_end.LayoutEnd.TheVariants.{NoMemory};

    ghost from_gives = { λ _ e. e ≡ NoMemory };

    fn from(_refused: NoMemory) -> LayoutEnd {
        LayoutEnd::NoMemory
    }
}
