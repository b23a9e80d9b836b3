//! What the names of subroutines become in the one program that a text comes to: Y00001 and the like, names of COMMON
//! blocks in the main program, and arguments (ANSI X3.9-1978, sections 8.3 and 15.9.3).
#![tactic(auto)]

mod copied;
mod laws;
mod written;

pub use copied::{Becomes, CopiedName, copied_names};
pub use laws::copies_have_these_names;
pub use written::write_names;
