//! The statements of a text that is refused, as far as they can be read.

ghost use Rattle.std.specs.Prelude.{◌≡◌, ◌<◌, ◌+◌, ◌^◌, length, IfOk};
ghost use Rattle.fixed_form.specs.Reading.{reading};
ghost use Rattle.refusal_reports.specs.Statements.{parsed as parsed_of, raws_of};

use df_sequence::NoMemory;
use f77_parse::{StmtEnd, parse_stmt};
use f77_tree::Labelled;
use fixed_form::{FormEnd, RawStmt, RawStmtList, statements};
use std::alloc::Global;

/// The statements of a text, as they stand there; none where a line is refused.
pub(crate) fn raw_statements(alloc: Global, text: &[u8]) -> Result<RawStmtList, NoMemory>
    requires { length text.now + 1 < 2 ^ 32 }
    ensures { IfOk result (λ raws. raws ≡ raws_of (reading text.now)) }
{
    match statements(alloc, text) {
        Ok(raws) => Ok(raws),
        Err(FormEnd::NoMemory) => Err(NoMemory),
        Err(_) => Ok(RawStmtList::new(alloc)),
    }
}

/// The statements as they are read, up to the first that has no form.
pub(crate) fn parsed(alloc: Global, raws: &[RawStmt]) -> Result<Vec<Labelled>, NoMemory>
    ensures { IfOk result (λ stmts. stmts.items ≡ parsed_of raws.now) }
{
    let mut stmts = Vec::new(alloc);
    for raw in raws {
        match parse_stmt(alloc, raw) {
            Ok(s) => stmts.push(s)?,
            Err(StmtEnd::NoMemory) => return Err(NoMemory),
            Err(_) => return Ok(stmts),
        }
    }
    Ok(stmts)
}
