//! What the tests of free lines tell, as contracts of functions that do nothing.

ghost use Rattle.dep_routing.specs.FreeLaws.{FreeLinesAreTold, TouchedLinesAreLed, PassingLinesAreTold, WiresAreAlike, BypassesAreTold};

use crate::facts::tree_facts;
use crate::laws::{free_nodes, next_edges};
use closed_walks::edges_of_nodes;

/// Where the table of wires is that of a flow graph, a line is led to a node exactly where no quiet region holds the node. One edge to
/// the node tells it, and a line that the node touches is led to it. A line bypasses a region exactly where the edge begins at a free node
/// and enters a quiet region.
pub fn free_lines_are_told()
    ensures free { FreeLinesAreTold }
    ensures touched { TouchedLinesAreLed }
    ensures passing { PassingLinesAreTold }
    ensures wires { WiresAreAlike }
    ensures bypasses { BypassesAreTold }
{
    edges_of_nodes();
    free_nodes();
    next_edges();
    tree_facts();
}
