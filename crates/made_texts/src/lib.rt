//! The texts that `dfc` prints of a program, made in memory.
#![tactic(auto)]

mod jobs;
mod text_sink;
mod texts;

pub use text_sink::TextSink;
pub use texts::{print_graphs, print_output, print_run};
