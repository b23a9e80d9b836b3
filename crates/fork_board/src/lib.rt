//! The game of a program's net of operations in which the loads of a group fire in any order.
#![tactic(auto)]

mod chain_laws;
mod fork_laws;
mod simulation_laws;

pub use chain_laws::{groups_end, loads_come_once, loads_follow_one, loads_meet_successors};
pub use fork_laws::{forks_begin_soundly, forks_keep_the_laws};
pub use simulation_laws::{forks_simulate_programs, forks_stay_in_lockstep, own_runs_are_alike};
