//! Copies of units keep their control: laws over the definitions of `program_units`. No code of the compiler is here.
#![tactic(auto)]

mod listed_copies;

pub use listed_copies::{
    arms_end_alike, contexts_are_in_place, control_falls_alike, copies_are_sealed,
    copies_stand_in_lists, labels_lead_to_pieces, loops_end_alike, units_keep_their_control,
};
