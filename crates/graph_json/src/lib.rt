//! What `dfc` printed, as JSON.
#![tactic(auto)]

mod json;
mod json_graph;
mod trace_lines;

pub use json::write_printed;
pub use trace_lines::{Graphs, write_trace_lines};
