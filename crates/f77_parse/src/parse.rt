ghost use Rattle.std.specs.Prelude.{◌≡◌, ◌≢◌, IfOk, IfErr, IsTrue, Ok, Err};
ghost use Rattle.std.specs.List.{list_all};
ghost use Rattle.f77_tree.specs.StatementGrammar.{IsGiven, is_printable};
ghost use Rattle.f77_parse.specs.Parsing.{IsParsed, reading_of};

use crate::StmtEnd;
use crate::reader::Reader;
use crate::scan::marks_of;
use f77_expr::{DEEPEST_ALLOWED, ReadEnd};
use f77_tree::Labelled;
use fixed_form::RawStmt;
use std::alloc::Global;

/// The statement that a text is, with its label and its line (ANSI X3.9-1978, sections 4 to 12 and 15). No word is
/// reserved: `DO10I=1` is an assignment.
///
/// # Errors
///
/// Each tells the statement's line. The first of these that holds: TooDeep where more than 60 brackets are open at some
/// place, NoForm where the text has the form of no statement, BadConstant where a constant in it is above 2147483647, a
/// label isn't from 1 to 99999, or a repeat is 0. NoMemory may come in place of any answer.
pub fn parse_stmt(alloc: Global, raw: &RawStmt) -> Result<Labelled, StmtEnd>
    ensures parsed { IsParsed raw.now result }
    ensures accepted { IfOk result (λ labelled. reading_of raw.now ≡ Ok labelled) }
    ensures refused { IfErr result (λ end. end ≢ StmtEnd.NoMemory → reading_of raw.now ≡ Err end) }
    ensures given { IfOk result (λ labelled. IsTrue (list_all is_printable raw.now.text) → IsGiven labelled.stmt) }
{
    parsed(alloc, raw)
}

/// The statement that a text is.
fn parsed(alloc: Global, raw: &RawStmt) -> Result<Labelled, StmtEnd>
    ensures { IsParsed raw.now result }
{
    let marks = marks_of(raw.text.as_bytes());
    if marks.depth > DEEPEST_ALLOWED {
        return Err(StmtEnd::TooDeep(raw.line));
    }
    let mut reader = Reader::new(&raw.text);
    match reader.statement(alloc, marks.has_equals, marks.has_comma) {
        Err(ReadEnd::NoForm) => Err(StmtEnd::NoForm(raw.line)),
        Err(ReadEnd::NoMemory) => Err(StmtEnd::NoMemory),
        Ok(stmt) => {
            if reader.is_bad() {
                return Err(StmtEnd::BadConstant(raw.line));
            }
            Ok(Labelled {
                label: raw.label,
                line: raw.line,
                stmt,
            })
        }
    }
}
