//! The picture of a run in which each node fires as soon as it can: a row for each line of the source, a column for each
//! round, and a cell for each firing.
#![tactic(auto)]

mod grid;
mod keys;
mod labels;
mod page;
mod parts;
mod picture;
mod scale;

pub use picture::rounds_chart;
