use df_sequence::{CharList, Copied, NoMemory, Sequence};
use std::alloc::Global;

/// A statement as it stands in the source: an initial line and its continuation lines.
#[derive(Debug, Drop)]
pub struct RawStmt {
    /// The number in columns 1 to 5 of the initial line, at most 99999; 0 where they are blank.
    pub label: u32,
    /// The number of the initial line, counted from 1.
    pub line: u32,
    /// Columns 7 to 72 of the lines, joined: blanks dropped and letters folded to upper case, but for what stands between apostrophes.
    pub text: CharList,
}

/// Statements in their order.
pub type RawStmtList = Sequence<RawStmt>;

impl Copied for RawStmt {
    fn copy(&self, alloc: Global) -> Result<RawStmt, NoMemory> {
        let text = self.text.copy(alloc)?;
        Ok(RawStmt {
            label: self.label,
            line: self.line,
            text,
        })
    }
}
