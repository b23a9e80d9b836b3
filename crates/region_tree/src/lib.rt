//! The regions of a flow graph, and how they lie in one another.
//!
//! Source: Johnson, Pearson and Pingali, "The program structure tree", PLDI 1994.
#![tactic(auto)]

mod facts;
mod laws;
mod listing;
mod making;
mod nesting;
mod next_edges;
mod scan;
mod tree;

pub use laws::{
    holders_are_a_chain, one_tree, passed_nodes_are_regions, region_borders, region_numbers,
    start_is_outside, tree_nests, tree_ranks,
};
pub use making::region_tree;
pub use tree::RegionTree;
