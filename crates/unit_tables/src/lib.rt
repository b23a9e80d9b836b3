//! What the rules of lowering need of a unit: its names' kinds and bounds, the values of its constant expressions, labels and names that are
//! free, and lists of tokens cut at commas and put together.
#![tactic(auto)]

mod bounds;
mod evaluate;
mod fresh;
mod growth;
mod pieces;
mod substitute;
mod symbols;
mod units;
mod values;

pub use bounds::{Bound, agreed, bounds_of, number_of_elements, written_bounds};
pub use fresh::{Labels, fresh_name};
pub use growth::{Growth, MOST_STATEMENTS};
pub use pieces::{assignment, joined, name_alone, number_alone, pieces_of};
pub use substitute::{Replacements, substituted};
pub use symbols::Symbols;
pub use units::{Unit, main_first, units_of};
pub use values::{signed, word};
