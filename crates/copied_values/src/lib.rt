//! Copies of units keep their declarations, values and steps: laws over the definitions of `program_units`. No code of the compiler is here.
#![tactic(auto)]

mod copied_steps;
mod copied_values;
mod listed_declarations;

pub use copied_steps::copies_do_the_same;
pub use copied_values::{copies_have_the_same_values, places_decide_no_trees};
pub use listed_declarations::{lists_declare, names_keep_their_declarations};
