//! The texts of sample programs.
#![tactic(auto)]

mod appending;
mod sample;

pub use sample::sample_text;
