//! Program units: the main program and subroutines of a text, and the definitions of what they come to, of what refuses them and of how they run.
#![tactic(auto)]

mod entity;
mod named_subs;
mod new_name;
mod splitting;
mod stand_in;
mod sub_end;
mod unit_dummies;
mod unit_index;
mod unit_lines;
mod unit_order;

pub use entity::{Entities, Entity, copy_of_block};
pub use named_subs::{SubNames, first_lacking_sub, inner_of, sub_names};
pub use new_name::NewName;
pub use splitting::{Units, is_end};
pub use stand_in::standing_in;
pub use sub_end::SubEnd;
pub use unit_dummies::dummies;
pub use unit_index::{note_name, sub_index, unit_of};
pub use unit_lines::line_of_end;
pub use unit_order::first_out_of_unit;
