//! What a layout of statements is: the table of names, the places of storage, the executables, and the ten refusals, each a
//! test of a statement and of those above it (ANSI X3.9-1978, sections 2, 3, 5 and 7 to 11). The lemmas that several parts of
//! the layout cite stand in `proofs/`.
#![tactic(auto)]

mod layout_end;
mod lowest_fault;
mod nesting;

pub use layout_end::LayoutEnd;
pub use lowest_fault::{lower, with_line};
pub use nesting::{Opened, Role};
