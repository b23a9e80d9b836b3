//! How wide a run is: the earliest round in which each firing of a trace could have come, and how many came in each.
#![tactic(auto)]

mod bars;
mod loads;
mod profile;
mod rounds;
mod tables;

pub use loads::Loads;
pub use profile::{lines_before_trace, rounds_of, write_profile};
pub use rounds::Rounds;
