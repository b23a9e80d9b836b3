//! The parts of a lane chart, at their places, and the text of each in SVG. All places are in pixels from the left and from above.
#![tactic(auto)]

mod chart;
mod grounds;
mod marks;
mod ways;

pub use chart::Chart;
pub use grounds::{Frame, Name, Note, Statement};
pub use marks::{Mark, Shape, Spot};
pub use ways::{Exit, Look, Side, Way};
