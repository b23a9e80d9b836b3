//! Why a text is no program of the language, as a compiler tells it: the file, the line and the column, the line itself, what
//! is wrong, and what to write instead.
#![tactic(auto)]

mod advices;
mod causes;
mod columns;
mod refusals;
mod report;
mod statements;

pub use refusals::{refusal_report, too_long_report};
