//! Statements of everyday Fortran 77 as lists of tokens with brackets: read from a text in fixed form, and printed as one.
#![tactic(auto)]

mod cards;
mod classify;
mod error;
mod heads;
mod keywords;
mod lexer;
mod name_table;
mod print;
mod read;
mod signs;
mod statements;
mod tokens;

pub use error::{LowerError, Place, Reason, Rule};
pub use heads::{Head, Kind};
pub use name_table::{Name, Names};
pub use print::Printer;
pub use read::read_statements;
pub use signs::Sign;
pub use statements::Statement;
pub use tokens::{Node, Token, copied, is_sign, leaf};
