//! Subscripts that are seen in range: their values lie within the bounds of their dimension whenever control comes to them,
//! since the variable of a DO runs through known values.
#![tactic(auto)]

mod laws;

pub use laws::{plain_loops_run_through_their_values, subscripts_seen_in_range_do_not_trap};
