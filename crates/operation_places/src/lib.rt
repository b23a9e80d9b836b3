//! Where the token lines of a net of operations stand, which values are given, and for how much each node waits.
#![tactic(auto)]

mod control_moves;
mod counting;
mod leads;
mod piece_lines;
mod places;
mod standing;
mod waiting;

pub use control_moves::{Visit, due_at, due_in, passed_on, steered, visit_at};
pub use leads::{Lead, lead_of};
pub use piece_lines::lead_piece;
pub use places::Places;
pub use standing::{head, is_needed, node_before, turn_of};
pub use waiting::{waits, waits_are_few, waits_for_operands};
