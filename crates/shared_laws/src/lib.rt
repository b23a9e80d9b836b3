//! Laws of the shared form of a program: it is flat, prints what the program prints, and takes few steps.
#![tactic(auto)]

mod rewritten_steps;
mod shared_laws;
mod shared_runs;

pub use rewritten_steps::rewritten_programs_take_few_steps;
pub use shared_laws::{shared_programs_are_flat, shared_statements_are_flat};
pub use shared_runs::{
    replaced_expressions_have_their_values, shared_programs_follow, shared_programs_print_alike,
    shared_steps_are_few,
};
