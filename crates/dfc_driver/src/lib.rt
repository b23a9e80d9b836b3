//! The words of `dfc`: what they ask for, done on the bytes of a source and written to a sink, with the exit status. Programs call it with
//! sources and sinks of their own.
#![tactic(auto)]

mod numbers;
mod top;
mod words;

pub use job_terms::{Code, Status};
pub use top::{dfc_main, words_mean};
