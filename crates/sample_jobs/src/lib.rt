//! What becomes of sample programs: how large one is, the game of its net, and the run of its rewritten form.
#![tactic(auto)]

mod sample;
mod sample_lines;

pub use sample::tell_sample;
