//! The meaning of integer Fortran 77, executed: one executable of the program tree at each step.
#![tactic(auto)]

mod branches;
mod executing;
mod line;
mod room;
mod stepper;
mod storage;
mod taking;

pub use executing::{assign, execute};
pub use line::{kind_of_value, write_line, write_values};
pub use room::{longest_line, room_of_line};
pub use stepper::{Stepped, Stepper};
pub use storage::{Storage, begin, following, increment, initial_storage, word_in};
