//! Laws on the form of what statements make, with no code: it is of the right kinds and shapes, and each executable takes few
//! operations.
#![tactic(auto)]

mod laws;

pub use laws::executables_have_right_kinds;
