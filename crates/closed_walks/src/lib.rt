//! Directed graphs, closed walks, and the cycle equivalence of edges.
#![tactic(auto)]

mod component_walk;
mod digraph;
mod edge_list;
mod laws;
mod on_cycle;
mod region_laws;
mod search;
mod search_back;
mod strong;

pub use digraph::{Digraph, EdgeEnd};
pub use laws::{
    cuts_are_classes, cycles_are_classes, edges_of_nodes, endless_ways_meet_cycles,
    reaching_is_told, walks_without,
};
pub use on_cycle::on_cycles;
pub use region_laws::{
    class_order, edge_ranks, passed_nodes, region_edges, regions_are_passed, regions_nest,
    sides_of_classes,
};
pub use search::{reached_from, same_class_plain};
pub use search_back::mark_back;
pub use strong::is_strong;
