//! Available expressions: operations whose values a piece of a flow graph can take from earlier pieces.
//!
//! Source: Kildall, "A unified approach to global program optimization", POPL 1973.
#![tactic(auto)]

mod avail;
mod collect;
mod laws;
mod listed;
mod noting;
mod operators;
mod pieces;
mod rows;
mod solve;
mod table;
mod trees;
mod users;

pub use avail::{Avail, available};
pub use laws::{available_expressions_keep_their_values, one_table_of_availability};
