//! The printed text of a flat program is read back: laws over what `flat_programs` prints and the crates that read texts. No code of the
//! compiler is here.
#![tactic(auto)]

mod declarations;
mod expressions;
mod lines;
mod printed;
mod programs;
mod refusals;
mod storage;

pub use declarations::{printed_groups_and_data_are_read_again, printed_loops_are_read_again};
pub use expressions::printed_expressions_are_themselves;
pub use lines::printed_lines_are_read;
pub use printed::{printed_text_is_read_back, texts_are_refused_for_size_alone};
pub use programs::{
    printed_programs_are_one_unit, printed_programs_are_read_by_statements,
    printed_programs_can_be_read, printed_programs_have_their_statements,
};
pub use refusals::{
    printed_arrays_have_their_dimensions, printed_names_are_common_once,
    printed_names_are_those_of_the_table, printed_programs_are_refused_for_storage_alone,
    printed_statements_are_in_order,
};
pub use storage::{printed_programs_have_form, printed_programs_have_their_storage};
