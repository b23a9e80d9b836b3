//! Statements of fixed-form Fortran 77, read from their texts (ANSI X3.9-1978, sections 4 to 12).
#![tactic(auto)]

mod constants;
mod declarations;
mod forms;
mod items;
mod keywords;
mod laws;
mod listing;
mod parse;
mod reader;
mod scan;
mod stmt_end;

pub use laws::{one_answer, one_statement};
pub use parse::parse_stmt;
pub use stmt_end::StmtEnd;
