//! A statement of a text that traps whenever it is executed, as a compiler tells it: the file and the line, what is wrong, the
//! line itself, and what to write instead.
#![tactic(auto)]

mod reports;
mod words;

pub use reports::trap_report;
