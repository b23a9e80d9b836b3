//! The lines of a text as a compiler shows them: the place, the line itself, and a caret under a column.
#![tactic(auto)]

mod lines;
mod places;

pub use lines::{caret, columns_to, line_of, shown};
pub use places::{Place, Shown};
