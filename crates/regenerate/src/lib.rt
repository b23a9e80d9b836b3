//! Programs written anew: repeated expressions of the simplified form are done once, which is the shared form.
#![tactic(auto)]

mod due;
mod longer_table;
mod names;
mod replacing;
mod shared_form;
mod shared_lines;
mod sharing;
mod temporaries;

pub use shared_form::{share, share_text};
