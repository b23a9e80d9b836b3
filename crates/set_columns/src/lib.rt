//! Tables of marks, into which rows are put as sets, and of which columns are read, their rows rising.
#![tactic(auto)]

mod columns;

pub use columns::Columns;
