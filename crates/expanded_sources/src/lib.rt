//! What a text with subroutines comes to can be laid out: a law over the definitions of `program_units`. No code of the compiler is here.
#![tactic(auto)]

mod laws;

pub use laws::expansions_are_sources;
