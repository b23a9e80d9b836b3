//! Lists of the names of nodes, of four bytes each where their numbers are not large.
#![tactic(auto)]

mod names;

pub use names::NameList;
