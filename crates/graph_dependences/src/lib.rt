//! Which statements of a program depend on which, by its printed graphs.
//!
//! A *way* of a token line leads from a node to the next node that needs the line, in the same piece or past wires and bypasses in another one.
//! An operation *changes* a line where it needs it and is neither a LOAD nor a DECIDE. Of two operations that need a line, of which one
//! changes it, the second depends on the first where ways of the line lead there past nodes that don't change it.
//! A statement depends on a decision where it is always executed after one edge of that, and needn't be after another.
//! A loop *carries* a dependence where a way that the line takes there leads from no earlier piece than both nodes' to no later one, over a
//! jump back around both.
//! Two statements are independent where no list of ways, of values and of decisions leads from an operation of one to one of the other (`waits`).
#![tactic(auto)]

mod all_ways;
mod control;
mod dependence;
mod fault;
mod joined;
mod kinds;
mod nodes;
mod pairs;
mod waiting;
mod ways;

pub use dependence::{Dependence, dependences};
pub use fault::DependenceFault;
pub use kinds::Kind;
pub use waiting::{Wait, has_operations, waits};
