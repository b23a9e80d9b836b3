//! Dataflow nets that fire in place of a program's steps.
#![tactic(auto)]

mod control_moves;
mod leading;
mod net;
mod net_firing;
mod net_system;
mod new_net;
mod pieces_run;
mod retesting;
mod waking;

pub use net::Net;
