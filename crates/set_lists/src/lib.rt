//! Lists of sets of numbers of which most have one member at most.
#![tactic(auto)]

mod lists;

pub use lists::SetList;
