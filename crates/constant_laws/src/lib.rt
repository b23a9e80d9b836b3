//! What the constants of a program tell of its runs: what is known is so, runs take live edges alone, and a decided branch goes on.
#![tactic(auto)]

mod facts;
mod laws;

pub use laws::{
    constants_are_right, decided_pieces_go_on, known_expressions_have_their_values,
    live_decisions_are_known, live_edges_have_values, one_table_of_constants, own_touches_route,
};
