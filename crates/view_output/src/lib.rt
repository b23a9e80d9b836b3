//! A text on its way to a sink, why one isn't told, and which lines of tokens are shown: what the commands of `dfc_view` share.
#![tactic(auto)]

mod fault;
mod lines;
mod output;
mod shown_lines;

pub use fault::{Fault, status};
pub use lines::line_of;
pub use output::Output;
pub use shown_lines::{Lines, holds};
