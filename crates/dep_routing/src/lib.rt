//! Which lines of tokens the pieces of a flow graph touch, and past which regions the tokens of a line are led.
//!
//! A line is a number from 0. Line 0 of a program is that of output, and the others are its alias classes. A region of which no
//! node touches a line is quiet for it, and the line bypasses it, from its entry to its exit.
//!
//! Source: Johnson and Pingali, "Dependence-based program analysis", PLDI 1993.
#![tactic(auto)]

mod borders;
mod branch_needs;
mod edge_rows;
mod edge_sets;
mod facts;
mod free;
mod free_laws;
mod laws;
mod leaving;
mod lines;
mod noise;
mod one_table;
mod order;
mod risk_laws;
mod routing;
mod rows;
mod touch_laws;
mod touched;
mod touching;

use class_set::ClassSet;
use df_sequence::Sequence;
pub use free::{bypass_lines, free_lines, passing_lines};
pub use free_laws::free_lines_are_told;
pub use laws::{
    free_nodes, free_passed_nodes, largest_quiet_regions, next_edges, places, places_over_a_pass,
    quiet_regions,
};
pub use leaving::{output_keeps_moving, quiet_regions_are_left};
pub use lines::Lines;
pub use one_table::{one_routing, one_touching};
pub use risk_laws::risks_are_sound;
pub use routing::route;
pub use touch_laws::{
    pieces_touch_lines, touches_are_sound, touches_follow_needs, traps_touch_output,
};
pub use touched::{least_above, touched_lines};
pub use touching::{touches, touches_by};

/// For each node the set of the lines that it touches.
pub type TouchList<const W: usize> = Sequence<ClassSet<W>>;
