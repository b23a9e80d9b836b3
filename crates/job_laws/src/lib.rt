//! What is due of each job means for every text, whether or not the job is done: laws over the crate of jobs. No code of the compiler is
//! here.
#![tactic(auto)]

mod forms;
mod games;
mod graphs;
mod samples;
mod texts;

pub use games::{forks_are_due, games_are_due};
pub use samples::sample_texts_mean;
pub use texts::texts_mean;
