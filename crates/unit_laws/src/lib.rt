//! What units and their copies keep: laws over the definitions of `program_units`. No code of the compiler is here.
#![tactic(auto)]

mod copies;
mod units;

pub use copies::{
    copies_are_counted, copies_settle, labels_of_pieces_stand_apart, units_have_heights,
};
pub use units::{
    names_of_texts_are_short, own_names_are_new, short_names_are_new, stand_ins_are_given,
    units_are_sources, units_end_once,
};
