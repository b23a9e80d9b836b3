//! Which words of storage have one value wherever a line of the dependence graph brings them, and which branches always go the same
//! way: sparse conditional constants over wires.
//!
//! Source: Wegman and Zadeck, "Constant propagation with conditional branches", TOPLAS 13 (1991).
#![tactic(auto)]

mod edge_set;
mod facts;
mod known;
mod known_rows;
mod known_values;
mod live;
mod making;
mod pieces;
mod row;
mod setting;
mod sparse_sets;
mod starts;
mod sweeps;
mod table;
mod values;
mod visit;
mod work;

pub use facts::program_facts;
pub use known::Known;
pub use live::live_edges;
pub use making::constants;
pub use table::Table;
