//! The list type that all crates of the compiler share, and their error for allocation failure.
#![tactic(auto)]

mod boxed;
mod copied;
mod long_sequence;
mod no_memory;
mod sequence;

pub use boxed::Boxed;
pub use copied::Copied;
pub use long_sequence::LongSequence;
pub use no_memory::NoMemory;
pub use sequence::{CharList, LabelList, NumList, Sequence, WordList};
