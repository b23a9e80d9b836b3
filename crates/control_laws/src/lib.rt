//! Laws on executables, with no code: their successors exist, and the DO loops of statements that are nested right are the
//! loops of their executables.
#![tactic(auto)]

mod laws;

pub use laws::control_leads_within_programs;
