//! The flow graph of a program: what its executables do, in pieces, with joins where control comes together, and holds where
//! it can't come to the end.
#![tactic(auto)]

mod flow;
mod holds;
mod laws;
mod numbers;
mod outs;
mod parts;
mod pass_laws;
mod pieces;
mod reached;
mod rows;
mod step_laws;
mod zone_laws;

pub use flow::{Flow, flow_of};
pub use laws::{
    flow_graph_has_shape, flow_graph_is_strong, holds_come_in_rounds, pieces_are_few,
    pieces_have_ways_out, pieces_run_executables,
};
pub use pass_laws::{
    chains_lead_to_successors, passes_are_a_walk, passes_follow_steps, passes_hold_words,
    runs_leave_the_start,
};
pub use pieces::{Piece, PieceKind};
pub use step_laws::{executables_have_own_pieces, passes_lie_within_steps};
pub use zone_laws::{acts_go_on, ranges_are_entered_by_tests};
