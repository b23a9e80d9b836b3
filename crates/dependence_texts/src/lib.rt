//! Which statements of a program depend on which, as text and as JSON.
#![tactic(auto)]

mod json;
mod lines;
mod parts;

pub use json::write_dependences_json;
pub use lines::{write_dependences, write_independence};
