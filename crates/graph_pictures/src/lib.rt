//! Pictures of flow graphs and of dataflow graphs, for Graphviz.
#![tactic(auto)]

mod boxes;
mod flow_dot;
mod graph_dot;
mod groups;
mod numbered;
mod regions;
mod wires_dot;

pub use flow_dot::write_flow;
pub use graph_dot::write_graph;
