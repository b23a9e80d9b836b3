//! Lists of brackets over linked cells, for the undirected walk that names cycle classes.
#![tactic(auto)]

mod lists;

pub use lists::BracketLists;
