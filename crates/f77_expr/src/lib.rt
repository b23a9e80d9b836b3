//! Expressions of fixed-form Fortran 77, read from a text and printed (ANSI X3.9-1978, section 6).
#![tactic(auto)]

mod appending;
mod characters;
mod constants;
mod extremes;
mod laws;
mod operators;
mod parse;
mod parsed;
mod print;
mod printed_laws;
mod printed_operators;
mod reader;
mod scan;
mod targets;
mod trees;

pub use characters::{
    GREATEST_CONSTANT, after_prefix, bounded_number, digits_of, is_letter, symbolic_of,
};
pub use laws::{one_reading, piece_of_reading};
pub use parse::{DEEPEST_ALLOWED, parse_expr, read_expr};
pub use parsed::{ExprEnd, Parsed, ReadEnd, ReadExpr};
pub use print::print_expr;
pub use printed_laws::{depth_of_joined_texts, printed_texts_are_read};
pub use scan::{Open, open_after};
pub use targets::print_access;
