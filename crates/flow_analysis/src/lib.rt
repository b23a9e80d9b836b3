//! What the jobs on a program share: its flow graph with the classes of cycle equivalent edges and the regions, its alias classes, the
//! token lines that each piece touches, and where the token lines are led.
#![tactic(auto)]

mod graph;
mod parts;

pub use graph::{FlowRegions, flow_regions};
pub use parts::{Analysis, analyze, analyze_by_ranges};
