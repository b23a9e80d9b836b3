//! The jobs that tell what was found of a program: its flow graph with classes and regions, and its net of operations.
#![tactic(auto)]

mod graph;
mod region_line;
mod regions;

pub use graph::tell_graph;
pub use region_line::counts_line;
pub use regions::{class_count, tell_regions};
