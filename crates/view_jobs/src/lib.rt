//! What `dfc_view` does: charts, dependences, pictures, JSON and profiles of a program, what it prints, and what is wrong with a text that is none. Programs call it
//! with files, sources and sinks of their own.
#![tactic(auto)]

mod charts;
mod faults;
mod files;
mod given;
mod lowered;
mod names;
mod outputs;
mod pages;
mod programs;
mod refusals;
mod top;
mod view;

pub use faults::tell_fault;
pub use files::{Files, LONGEST};
pub use top::view_main;

/// The status where all is done, where a text that is checked is faulty, and where a program is refused.
const DONE: u8 = 0;

const FAULTY: u8 = 1;

const REFUSED: u8 = 2;
