//! Programs rewritten: constants folded, branches decided, and repeated expressions done once.
#![tactic(auto)]

mod laws;
mod rewritten;

pub use laws::{rewritten_forms_are_one, rewritten_programs_print_alike};
pub use rewritten::{rewrite, rewrite_text};
pub use shared_forms::RewriteEnd;
