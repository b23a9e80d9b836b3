//! What the simplified form of a program is and does: a flat program that prints what the program prints.
#![tactic(auto)]

mod flat_laws;
mod laws;
mod run_laws;
mod running;

pub use flat_laws::{
    simplified_programs_are_flat, simplified_programs_have_no_more_classes,
    simplified_statements_are_flat,
};
pub use laws::{
    items_lead_to_items, live_executables_lead_on, live_ranges_have_live_starts,
    own_pieces_stand_in_chains, statements_stand_in_order,
};
pub use run_laws::{known_values_are_words, known_words_are_right_in_runs};
pub use running::{
    folded_expressions_keep_their_values, runs_take_few_operations, simplified_programs_print_alike,
};
