//! The report of a refusal.
//!
//! What is written is exact, by `report_text` of specs/.

ghost use Rattle.std.specs.Prelude.{Some};
ghost use Rattle.refusal_reports.specs.Report.{report_text};

use refusal_causes::Cause;
use shown_lines::{Place, Shown};
use std::fmt;

/// What is told of a refusal.
#[derive(Clone, Copy)]
pub(crate) struct Report<'p, 'c, 's> {
    pub(crate) place: Place<'p>,
    pub(crate) cause: Cause<'c>,
    pub(crate) code_name: &'p str,
    pub(crate) shown: Shown<'s>,
}

impl fmt::Display for Report<'_, '_, '_> {
    ghost output = { λ report. Some (report_text report) };

    fn fmt<W: fmt::Write>(&self, f: &mut fmt::Formatter<W>) -> fmt::Result {
        let Report {
            place,
            cause,
            code_name,
            shown,
        } = *self;
        let instead = cause.instead();
        write!(
            f,
            "{place}: error: {cause} [{code_name}]\n{shown}  {instead}\n"
        )
    }
}
