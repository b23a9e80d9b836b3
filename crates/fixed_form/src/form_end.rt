use df_sequence::NoMemory;
use thiserror::Error;

/// Why a text has no statements. Each number is that of a source line, counted from 1.
#[derive(Clone, Copy, Debug, PartialEq, Eq, Error)]
pub enum FormEnd {
    /// A line that isn't a comment has a byte outside 32 to 126 in columns 1 to 72.
    #[error("line {0}: a byte that is no character of the source")]
    BadByte(u32),
    /// Columns 1 to 5 of an initial line aren't a label, or those of a continuation line aren't blank.
    #[error("line {0}: a label field that is no label")]
    BadLabelField(u32),
    /// A continuation line stands above the first initial line.
    #[error("line {0}: a continuation of no statement")]
    StrayContinuation(u32),
    /// A statement has more than 19 continuation lines. The line is that of the 20th.
    #[error("line {0}: a 20th continuation line")]
    TooManyContinuations(u32),
    /// There is no statement, or the last one isn't `END`. The line is the one after the last.
    #[error("line {0}: no END")]
    NoEnd(u32),
    /// There are more than 4,000 statements. The line is that of the 4,001st.
    #[error("line {0}: a 4001st statement")]
    TooManyStatements(u32),
    /// There was no memory for the statements.
    #[error("out of memory")]
    NoMemory,
}

impl From<NoMemory> for FormEnd {
    ghost use Rattle.std.specs.Prelude.{◌≡◌};
    ghost use Rattle.fixed_form.specs.declared.form_end.FormEnd.TheVariants.{NoMemory};

    ghost from_gives = { λ _ e. e ≡ NoMemory };

    fn from(_refused: NoMemory) -> FormEnd {
        FormEnd::NoMemory
    }
}
