//! Where everything of a lane chart stands: the layout of a dataflow graph on a page.
//!
//! Rows come first, from the pieces of the program; then boxes, from its regions; then lanes, from its token lines, with the
//! ways along each; and at last the page, on which each part has its place.
#![tactic(auto)]

mod frames;
mod lanes;
mod layout;
mod page;
mod rows;
mod spots;
mod ways;

pub use layout::chart_of;
