//! A text with subroutines runs as the one program that it comes to: laws over the definitions of `program_units`. No code of the compiler is
//! here.
#![tactic(auto)]

mod contexts;
mod control;
mod copied_names;
mod entity_names;
mod expanded;
mod listed_storage;
mod opening_words;
mod placings;
mod runs;
mod storages;

pub use contexts::{
    contexts_are_of_the_run, names_are_tied, tables_are_changed, tables_are_placed,
    tables_have_entities,
};
pub use control::copies_keep_control;
pub use copied_names::{copied_names_are_declared_alike, stand_ins_are_declared_alike};
pub use entity_names::{entities_keep_their_declarations, names_of_blocks_stand_once};
pub use expanded::laid_expansions_are_expanded;
pub use listed_storage::lists_share_storage;
pub use opening_words::opening_words_are_initial;
pub use placings::{frames_are_placed, placings_pair_words, programs_place_their_entities};
pub use runs::expansions_run_as_calls;
pub use storages::programs_have_storage;
