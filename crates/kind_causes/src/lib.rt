//! What is wrong with the kinds of a statement: of its names, its expressions and what it declares.
#![tactic(auto)]

mod kind_cause;
mod kinds;

pub use kind_cause::KindCause;
pub use kinds::cause_of_kind;
