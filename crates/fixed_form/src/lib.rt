//! The lines of a Fortran 77 source in fixed form: from bytes to labelled statements, or to the first refusal.
#![tactic(auto)]

mod form_end;
mod line;
mod open_stmt;
mod raw_stmt;
mod reader;
mod source;

pub use form_end::FormEnd;
pub use raw_stmt::{RawStmt, RawStmtList};
pub use source::statements;
