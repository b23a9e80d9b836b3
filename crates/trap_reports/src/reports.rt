//! The report of a sure trap.

ghost use Rattle.std.specs.Prelude.{◌≡◌, IfOk, Some, string_bytes};
ghost use Rattle.trap_reports.specs.Reports.{report_of, report_text};
ghost use Rattle.trap_reports.specs.Words.{wrong as wrong_of};

use crate::words::{Outside, instead, operator_wrong};
use itoa::Buffer;
use shown_lines::{line_of, shown};
use std::alloc::{AllocError, Global};
use std::fmt;
use sure_traps::{Cause, SureTrap};

// What is told of a trap.
#[derive(Clone, Copy)]
struct Report<'f, 'w, 's> {
    file: &'f str,
    line: u32,
    wrong: &'w str,
    shown: &'s str,
    instead: &'static str,
}

impl fmt::Display for Report<'_, '_, '_> {
    ghost output = { λ r. Some (report_text r.file.now r.line r.wrong.now r.shown.now r.instead.now) };

    fn fmt<W: fmt::Write>(&self, f: &mut fmt::Formatter<W>) -> fmt::Result {
        let Report {
            file,
            line,
            wrong,
            shown,
            instead,
        } = *self;
        write!(
            f,
            "{file}:{line}: error: {wrong}, so the statement traps [TRAP]\n  |{shown}\n  {instead}\n"
        )
    }
}

/// The report of a sure trap: `FILE:LINE: error: WHAT IS WRONG, so the statement traps [TRAP]`, the line, and what to write instead,
/// each in a line.
///
/// # Errors
///
/// `AllocError` where memory runs out.
pub fn trap_report(
    alloc: Global,
    file: &str,
    text: &[u8],
    trap: SureTrap,
) -> Result<String, AllocError>
    ensures { IfOk result (λ report. string_bytes report ≡ report_of file.now text.now trap) }
{
    let wrong = wrong(alloc, trap.cause)?;
    let shown = shown(alloc, line_of(text, trap.line))?;
    let report = Report {
        file,
        line: trap.line,
        wrong: wrong.as_str(),
        shown: shown.as_str(),
        instead: instead(trap.cause),
    };
    format!(in alloc; "{report}")
}

// What is wrong.
fn wrong(alloc: Global, cause: Cause) -> Result<String, AllocError>
    ensures { IfOk result (λ text. string_bytes text ≡ wrong_of cause) }
{
    match cause {
        Cause::Operator(op) => {
            let text = operator_wrong(op);
            format!(in alloc; "{text}")
        }
        Cause::Subscript { value, dim } => {
            let (mut here, mut below, mut above) = (Buffer::new(), Buffer::new(), Buffer::new());
            let outside = Outside {
                value: here.format(value),
                low: below.format(dim.lo),
                high: above.format(dim.hi),
            };
            format!(in alloc; "{outside}")
        }
    }
}
