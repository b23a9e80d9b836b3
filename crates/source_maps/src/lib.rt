//! Lines and names of a program as a person wrote it, in place of those of the text that was made of it.
#![tactic(auto)]

mod map;
mod output;
mod printed;

pub use map::SourceMap;
pub use output::{ToldTrap, trap_at_end};
pub use printed::tell_source;
