//! That touches and tables of wires are one, as contracts of functions that do nothing.

ghost use Rattle.dep_routing.specs.OneTable.{SetsEnd, OneTouching, SameCellsSameTable, OneRouting};

use crate::laws::next_edges;
use alias_classes::one_numbering;
use region_tree::one_tree;

/// Whatever tells which lines the pieces of a program touch tells the same, where it tells none of other pieces. Sets of lines tell
/// none of nodes that have no set.
pub fn one_touching()
    ensures ends { SetsEnd }
    ensures one { OneTouching }
{
    one_numbering();
}

/// A flow graph has one table of wires for the lines that its nodes touch. Two tables with the same cells are the same.
pub fn one_routing()
    ensures cells { SameCellsSameTable }
    ensures one { OneRouting }
{
    one_tree();
    next_edges();
}
