//! Alias classes: which words of storage may be the same to a dependence analysis.
#![tactic(auto)]

mod class_end;
mod classes;
mod exec_needs;
mod known;
mod laws;
mod making;
mod needs;
mod runs;
mod spans;
mod walk;
mod write_laws;

pub use class_end::ClassEnd;
pub use classes::{Classes, classes_of};
pub use exec_needs::exec_need;
pub use known::known_word;
pub use laws::{
    classes_are_counted, classes_are_numbered, needs_are_a_frame, needs_are_numbered,
    needs_cover_accesses, one_numbering,
};
pub use write_laws::{fewer_loops_have_no_more_classes, writes_cover_changes};

/// A set of the alias classes of a program has so many words of 64 bits. One bit is no class, so that a program may have
/// `64 * CLASS_WORDS - 1` classes.
pub const CLASS_WORDS: usize = 16;
