//! What the words after the name of `dfc_view` ask for.
#![tactic(auto)]

mod arguments;
mod commands;
mod help;
mod numbers;
mod run_words;

pub use arguments::{Files, Job, LoweredForm, Program, Task, job_of};
pub use commands::Command;
pub use help::{HELP, VERSION, help_of};
pub use numbers::written_numbers_are_read;
pub use run_words::{
    dialect_of, is_checked, tells_run, with_picks, without_forks, without_picks, words_after,
};
