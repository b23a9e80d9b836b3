//! Everyday integer Fortran 77, lowered into the language of `dfc`: one rule a pass, over the statements of a program.
//! docs/LOWERING.md has each rule, with a text before and after it.
#![tactic(auto)]

mod language;
mod lowering;
mod shorten;

pub use lowering::{Lowered, lower};
