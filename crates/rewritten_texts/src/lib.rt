//! The text of the rewritten form of a program is read back: laws over `rewriting` and `read_back`. No code of the compiler is here.
#![tactic(auto)]

mod dialects;
mod runs;
mod texts;

pub use dialects::rewritten_programs_keep_their_dialect;
pub use runs::{programs_read_again_print_alike, rewritten_texts_print_alike};
pub use texts::{
    rewritten_programs_have_text, rewritten_texts_are_one_unit, rewritten_texts_are_read_back,
};
