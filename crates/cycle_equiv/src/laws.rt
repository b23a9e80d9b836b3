//! Laws on depth-first trees, as contracts of functions that do nothing.

ghost use Rattle.cycle_equiv.specs.BracketLists.{NamesTellClasses};
ghost use Rattle.cycle_equiv.specs.DepthFirst.{BracketsTellClasses};

/// In a strongly connected graph with a depth-first tree two tree edges are cycle equivalent exactly where the same back
/// edges lead over them, a tree edge and a back edge exactly where that back edge alone leads over it, and no two back edges
/// are.
///
/// Johnson, Pearson and Pingali, "The program structure tree", PLDI 1994.
pub fn brackets_tell_classes()
    ensures { BracketsTellClasses }
{}

/// In a strongly connected graph with a depth-first tree two edges are cycle equivalent exactly where they have the same
/// name: for a tree edge the top of its list of brackets, with a capping bracket for each node whose children reach far up
/// twice, and how long the list is.
pub fn names_tell_classes()
    ensures { NamesTellClasses }
{}
