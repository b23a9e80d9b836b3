use thiserror::Error;

/// Why a text is no statement. Each number is the line where the statement begins. Where several hold, TooDeep is told
/// before NoForm, and NoForm before BadConstant.
#[derive(Clone, Copy, Debug, PartialEq, Eq, Error)]
pub enum StmtEnd {
    /// The text has the form of no statement.
    #[error("line {0}: no statement has this form")]
    NoForm(u32),
    /// An integer constant is above 2147483647, a label isn't from 1 to 99999, or a repeat is 0.
    #[error("line {0}: a constant, a label or a repeat is out of range")]
    BadConstant(u32),
    /// More than 60 brackets are open at some place of the text.
    #[error("line {0}: more than 60 brackets are open")]
    TooDeep(u32),
    /// There was no memory.
    #[error("out of memory")]
    NoMemory,
}
