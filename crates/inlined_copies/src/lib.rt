//! Copies of subroutines in place of their CALLs: how many statements and labels they have, and the copies themselves.
#![tactic(auto)]

mod call_rows;
mod changed;
mod changed_stmts;
mod changes;
mod copying;
mod counted_units;
mod label_tables;
mod labels;
mod total_widths;
mod unit_table;
mod widths;

pub use call_rows::add_within;
pub use copying::put;
pub use counted_units::LabelCounts;
pub use labels::label_counts;
pub use total_widths::has_more_than;
pub use unit_table::{CopyOf, CopyTables, NewLabel, UnitTable};
