//! The words of a picture: what the nodes of a graph do, the names of token lines, and the lines of the source.
#![tactic(auto)]

mod labels;
mod nodes;
mod source_lines;
mod terms;

pub use labels::{put_line, sign};
pub use nodes::{Nodes, lines_of, piece_of};
pub use source_lines::SourceLines;
pub use terms::{Terms, name_of, note_of, title_of};
