//! The table of names of a program, each with its kind and dimensions, in the order in which they first appear.
#![tactic(auto)]

mod names;

pub use names::{Names, Symbol};
