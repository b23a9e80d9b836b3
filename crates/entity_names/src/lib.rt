//! What the names of units stand for, and the names that these entities get in the one program that a text comes to.
#![tactic(auto)]

mod dummy_places;
mod new_names;
mod text_entities;
mod text_names;
mod unit_blocks;
mod unit_entities;
mod unit_names;
mod used_names;
mod y_names;

pub use new_names::{NewNames, copy_found};
pub use text_entities::TextEntities;
pub use text_names::Blocks;
pub use unit_blocks::{UnitBlocks, note_number};
pub use unit_entities::UnitNames;
pub use y_names::y_name;
