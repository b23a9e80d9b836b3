//! What a text is read as is of the dialect in which it is read: laws over the crates that read texts. No code of the compiler is here.
#![tactic(auto)]

mod dialects;

pub use dialects::{accepted_texts_are_read, programs_are_read_in_their_dialect};
