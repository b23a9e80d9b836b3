//! The text of a program's net of operations: its lines of tokens, its nodes with their operands, its wires and bypasses, each told in a
//! line. All that takes memory is made first; the text then goes to a sink through a buffer.
#![tactic(auto)]

mod edge_tables;
mod graph_line;
mod graph_lines;
mod graph_nodes;
mod graph_text;
mod graph_wires;
mod operation_names;

pub use edge_tables::{EdgeTables, tables_of_edges};
pub use graph_lines::name_sets;
pub use graph_text::write_graph;
