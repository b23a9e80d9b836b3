//! The report of a refusal, from the text and the refusal.

ghost use Rattle.std.specs.Prelude.{◌<◌, ◌+◌, ◌≡◌, ◌^◌, length, IfOk, string_bytes};
ghost use Rattle.refusal_reports.specs.Refusals.{IsReportOf, column_at as column_at_of, too_long, written as written_of};

use crate::causes::cause_of;
use crate::columns::{column_of_byte, column_of_label};
use crate::report::Report;
use crate::statements::{parsed, raw_statements};
use df_sequence::NoMemory;
use f77_source::{Code, Refusal};
use refusal_causes::Cause;
use shown_lines::{Place, Shown, caret, line_of, shown};
use std::alloc::Global;

/// The report of a refusal: `FILE:LINE:COLUMN: error: WHAT IS WRONG [CODE]`, the line, a caret under the column, and what to
/// write instead, each in a line. The column and the caret are there where the code of the refusal tells one.
///
/// The text has fewer than 2^32 - 1 bytes.
///
/// # Errors
///
/// `NoMemory` where memory runs out.
pub fn refusal_report<'p>(
    alloc: Global,
    file: &'p str,
    text: &[u8],
    refusal: Refusal,
    code_name: &'p str,
) -> Result<String, NoMemory>
    requires { length text.now + 1 < 2 ^ 32 }
    ensures { IfOk result (λ report. IsReportOf file.now text.now refusal code_name.now (string_bytes report)) }
{
    let raws = raw_statements(alloc, text)?;
    let raw_list = raws.as_slice();
    let stmts = parsed(alloc, raw_list)?;
    let stmt_list = stmts.as_slice();
    let line = line_of(text, refusal.line);
    let cause = cause_of(alloc, line, raw_list, stmt_list, refusal)?;
    let column = column_at(refusal.code, line);
    let place = place_of(file, refusal.line, column);
    written(alloc, place, line, cause, code_name)
}

// A place of a file.
fn place_of<'p>(file: &'p str, line: u32, column: Option<u32>) -> Place<'p>
    ensures file { result.file.now ≡ file.now }
    ensures line { result.line ≡ line }
    ensures column { result.column ≡ column }
{
    Place { file, line, column }
}

// The text of a report.
fn written<'p, 'c>(
    alloc: Global,
    place: Place<'p>,
    line: &[u8],
    cause: Cause<'c>,
    code_name: &'p str,
) -> Result<String, NoMemory>
    ensures { IfOk result (λ report. string_bytes report ≡ written_of place.entry line.now cause.entry code_name.now) }
{
    let caret = caret(alloc, line, place.column)?;
    let line = shown(alloc, line)?;
    let report = Report {
        place,
        cause,
        code_name,
        shown: Shown {
            line: line.as_str(),
            caret: caret.as_str(),
        },
    };
    Ok(format!(in alloc; "{report}")?)
}

// The column that a refusal of a line is for, where its code tells one.
fn column_at(code: Code, line: &[u8]) -> Option<u32>
    ensures { result ≡ column_at_of code line.now }
{
    match code {
        Code::BadByte => column_of_byte(line),
        Code::BadLabelField => column_of_label(line),
        _ => None,
    }
}

/// The report of a text of more than 4,194,304 bytes.
///
/// # Errors
///
/// `NoMemory` where memory runs out.
pub fn too_long_report(alloc: Global, file: &str) -> Result<String, NoMemory>
    ensures { IfOk result (λ report. string_bytes report ≡ too_long file.now) }
{
    Ok(format!(in alloc;
        "{file}: error: the text has more than 4,194,304 bytes [TOOLONG]\n  Make it shorter.\n"
    )?)
}
