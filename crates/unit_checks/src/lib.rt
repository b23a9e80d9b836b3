//! Texts whose units do not fit together: arguments and dummies, COMMON blocks, calls in a circle, units that are refused by themselves.
#![tactic(auto)]

mod alike;
mod bad_blocks;
mod bad_calls;
mod block_names;
mod block_owners;
mod dummies;
mod recursion;
mod refused_units;
mod running_units;
mod unit_interface;

pub use bad_blocks::first_bad_block;
pub use bad_calls::first_bad_call;
pub use recursion::first_recursion;
pub use refused_units::first_refused;
pub use running_units::running;
