//! The texts that `dfc regions`, `dfc graph` and `dfc trace` print, as values, and a reader that gives them back.
//!
//! What is read is what was printed: the text of the value is the text that was given (`read_printed`). Its time is
//! linear in the text, and besides the values it takes no memory.
#![tactic(auto)]

mod cursor;
mod dataflow;
mod dataflow_lines;
mod fault;
mod flow;
mod flow_lines;
mod printed;
mod trace;
mod trace_lines;
mod words;

pub use dataflow::{Bypass, Node, Operand, PrintedGraph, TokenLine, Value, Wires, Work};
pub use fault::ReadFault;
pub use flow::{Edge, Piece, PieceKind, PrintedFlow, Region};
pub use printed::{Printed, read_printed};
pub use trace::{Firing, NodeName, PrintedTrace, TraceEnd};
pub use words::{kind_name, trap_name, work_name};
