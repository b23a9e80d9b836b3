//! Source texts in fixed form: the program that a text is, or its first refusal (ANSI X3.9-1978).
#![tactic(auto)]

mod listed;
mod program;
mod source_end;

pub use program::{read_program, read_statements};
pub use source_end::{Code, Refusal, SourceEnd};
