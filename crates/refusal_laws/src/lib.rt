//! Where texts are refused: laws over what a text is, from its lines to its program. No code of the compiler is here.
#![tactic(auto)]

mod laws;

pub use laws::{readings_never_lack_memory, refusals_lie_in_their_text};
