//! Tables of rows of which many differ in a few numbers from one that is there, and share all else with it.
#![tactic(auto)]

mod rows;

pub use rows::SharedRows;
