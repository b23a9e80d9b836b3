//! What an operation of a net of operations does at the values of its operands.
#![tactic(auto)]

mod changes;
mod effect_laws;
mod giving;
mod performing;
mod reading;
mod sizes;
mod tasks;

pub use effect_laws::operations_fit_their_programs;
pub use giving::{give_value, operand_value};
pub use performing::{Did, perform};
pub use tasks::{Task, task_of};
