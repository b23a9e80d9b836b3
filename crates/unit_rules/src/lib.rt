//! The rules of lowering that look at one unit alone. docs/LOWERING.md has each rule, with a text before and after it.
#![tactic(auto)]

mod constants;
mod implied_do;
mod lists;
mod loops;
mod order;
mod reads;

pub use constants::with_constants;
pub use lists::{with_data, write_items};
pub use loops::with_labelled_loops;
pub use order::{in_order, refuse_late_declarations};
pub use reads::{is_open_read, read_in_loops};
