//! The operation game of a program.
#![tactic(auto)]

mod operation_laws;
mod simulation_laws;
mod structure_laws;

pub use operation_laws::{operation_nets_begin_soundly, operation_nets_keep_the_laws};
pub use simulation_laws::{
    operation_nets_pass_pieces_whole, operation_nets_simulate_programs,
    operation_nets_stay_in_lockstep,
};
pub use structure_laws::{
    known_traps_touch_output, operations_have_facts, pieces_have_operations,
    pieces_touch_needed_lines, values_are_taken_once,
};
