//! The jobs on the rewritten form of a program: its text is written, or it is run.
#![tactic(auto)]

mod regen;
mod rewriting_end;
mod run;

pub use regen::tell_regen;
pub use rewriting_end::tell_end;
pub use run::{run_of, tell_run, tell_steps};
