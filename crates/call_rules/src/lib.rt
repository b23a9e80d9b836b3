//! The rules of lowering that look at calls: values of functions, arguments, and the bounds of dummies. docs/LOWERING.md has each rule, with
//! a text before and after it.
#![tactic(auto)]

mod arguments;
mod caller;
mod calls;
mod copies;
mod known;
mod program;
mod values;

pub use copies::with_bounds;
pub use program::Program;
