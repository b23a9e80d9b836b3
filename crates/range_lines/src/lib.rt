//! Which subscripts of a program are seen in range, exactly, and which lines the pieces of its flow graph touch where these can't trap.
#![tactic(auto)]

mod flags;
mod laws;
mod marks;
mod ranges;
mod reaches;
mod risks;
mod shapes;
mod touches;
mod writes;

pub use laws::{one_range_touching, range_touches_are_sound, what_takes_data_may_trap};
pub use ranges::Ranges;
pub use risks::range_risks;
pub use touches::range_touches;
