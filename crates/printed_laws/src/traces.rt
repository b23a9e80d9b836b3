//! The text of traces.

ghost use Rattle.printed_laws.specs.PrintedTexts.{TracesAreRead};

use alias_classes::classes_are_counted;
use cfg_build::{flow_graph_has_shape, pieces_are_few};

/// What is written for `trace`, its lines of nodes and the line that tells how the game ended, can be read. The premises hold of each
/// program that is read, and of its flow graph and its net that are made.
pub fn traces_are_read()
    ensures { TracesAreRead }
{
    flow_graph_has_shape();
    pieces_are_few();
    classes_are_counted();
}
