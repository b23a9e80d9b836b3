//! The operations of the pieces of a program, one after another, and the token lines that they need.
#![tactic(auto)]

mod executables;
mod expressions;
mod needing;
mod operations;
mod operators;

pub use executables::piece_operations;
pub use needing::operation_needs;
pub use operations::{Operand, Operands, Operation, Work, gives_value, is_decision};
