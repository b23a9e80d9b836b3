//! The faults of declarations and DATA statements, and the words as DATA begins them (ANSI X3.9-1978, sections 5, 8 and 9).
#![tactic(auto)]

mod constants;
mod data;
mod data_items;
mod data_kinds;
mod data_spans;
mod declaration_faults;
mod dimensions;
mod given_words;
mod initial;
mod members;
mod name_set;
mod storage_faults;

pub use initial::initial_words;
pub use storage_faults::{wrong_places_line, wrong_storage_line};
