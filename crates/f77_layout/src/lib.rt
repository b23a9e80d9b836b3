//! The layout of a program: from statements to the table of names, the words of storage and the executables, or to the
//! first refusal (ANSI X3.9-1978, sections 2, 3, 5 and 7 to 11).
#![tactic(auto)]

mod assembly;
mod collecting;
mod laws;
mod order;

pub use assembly::assemble;
pub use collecting::commons_of;
pub use laws::{
    blocks_are_nested, executables_stand_in_order, first_faults_are_lowest,
    given_statements_are_trees, labels_lead_to_their_statements, names_that_share_words_are_linked,
    programs_are_well_formed, told_lines_are_first,
};
pub use layout_rules::LayoutEnd;
