//! Labels, DO loops and blocks of IF: where they stand, whether they are nested, and whether a jump leads into them
//! (ANSI X3.9-1978, sections 3.4 and 11).
#![tactic(auto)]

mod blocks;
mod jumps;
mod labels;
mod nesting;
mod open_stack;
mod roles;
mod room;

pub use blocks::Blocks;
pub use jumps::first_jump_into;
pub use labels::{Labels, first_labelled_twice, first_lacking_label};
pub use nesting::{Nesting, nesting_of};
pub use open_stack::Entry;
