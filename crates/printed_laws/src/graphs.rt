//! The text of dataflow graphs.

ghost use Rattle.printed_laws.specs.PrintedTexts.{GraphsAreRead};

use alias_classes::classes_are_counted;
use cfg_build::{flow_graph_is_strong, pieces_are_few};
use dep_routing::next_edges;

/// A text that tells the net of a program can be read. The premises hold of each program that is read, and of its flow graph and its net
/// that are made: its classes are few, and what is counted in them is counted in 32 bits.
pub fn graphs_are_read()
    ensures { GraphsAreRead }
{
    flow_graph_is_strong();
    pieces_are_few();
    classes_are_counted();
    next_edges();
}
