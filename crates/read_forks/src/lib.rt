//! The net of a program with operations as nodes, in which the loads of a group fire in any order: for what its loads wait, and the laws
//! on which it stands.
#![tactic(auto)]

mod arriving;
mod closing;
mod fork_firing;
mod fork_net;
mod fork_system;
mod new_fork_net;
mod new_marks;
mod new_steps;
mod opening;
mod step_laws;
mod steps;
mod testing;
mod waiting;
mod ways;

pub use fork_net::ForkNet;
pub use step_laws::{fired_loads_are_near, loads_fire_line_by_line};
