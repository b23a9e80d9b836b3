//! Pictures of a program's dataflow graph and of its runs: the lane chart and the rounds of a run as SVG, and a page that
//! steps through runs.
//!
//! A picture is laid out first, as values with whole numbers for places (the crates `lane_layout` and `round_charts`), and
//! then drawn from them.
#![tactic(auto)]

mod chart;
mod pages;
mod script;
mod sections;

pub use chart::lane_chart;
pub use pages::{Run, page};
pub use round_charts::rounds_chart;
pub use svg_text::ChartFault;
