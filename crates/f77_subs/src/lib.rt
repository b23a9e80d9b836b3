//! The one program that the units of a text come to.
#![tactic(auto)]

mod declaring;
mod expanding;
mod form_refusals;
mod great_names;
mod merged_blocks;
mod merged_counts;
mod merged_storage;
mod merging;
mod size_refusals;
mod unit_tables;
mod whole_list;

pub use expanding::expand;
