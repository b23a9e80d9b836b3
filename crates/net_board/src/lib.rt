//! The token game of a program's net: its nodes, its markings, what firings do to them, the program's own order of firing, and the
//! laws of these. Nothing here makes or fires a net; that is done by the crates above.
#![tactic(auto)]

mod control;
mod net_laws;
mod simulation_laws;

pub use control::Control;
pub use net_laws::{
    nets_begin_soundly, nets_keep_the_laws, parts_lead_lines, parts_make_nets, woken_nodes_are_all,
};
pub use simulation_laws::{
    control_arrives, lone_ends_have_no_nodes, nets_simulate_programs, nets_stay_in_lockstep,
};
