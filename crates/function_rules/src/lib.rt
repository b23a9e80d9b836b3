//! What units are for those that call them: functions, which become subroutines, and BLOCK DATA, whose values become the main program's.
//! docs/LOWERING.md has each rule, with a text before and after it.
#![tactic(auto)]

mod block_data;
mod common_blocks;
mod functions;
mod signatures;
mod statement_functions;

pub use block_data::without_block_data;
pub use functions::{as_subroutine, called_names, without_functions};
pub use signatures::{Signature, Signatures, dummies_of, is_known_intrinsic, signatures_of};
pub use statement_functions::{StatementFunction, element_of_no_array, statement_function};
