//! The executables that statements make, with where control goes from each, and how many operations they take.
#![tactic(auto)]

mod counts;
mod executables;
mod flow;
mod increments;
mod loops;
mod operations;
mod resolve;

pub use counts::lowest_too_great;
pub use executables::executables_of;
pub use loops::is_do;
