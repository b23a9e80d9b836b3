//! Flat programs: statements without blocks of IF, where each place to which a statement leads is a CONTINUE of its own. They have
//! executables, which tell them again, and a printed text.
#![tactic(auto)]

mod appending;
mod declarations;
mod executables;
mod flow;
mod laws;
mod lines;
mod page;
mod recovery;
mod shown;
mod statements;

pub use declarations::declaration_count;
pub use executables::{executables_of, first_executables, loop_count, program_of};
pub use laws::{
    executables_stand_in_order, executables_tell_statements, flat_statements_make_programs,
};
pub use page::{has_long_text, print_flat, print_program, print_unless_long};
pub use recovery::recover;
pub use statements::{Flat, FlatLine, FlatList};
