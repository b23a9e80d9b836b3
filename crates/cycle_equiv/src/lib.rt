//! The classes of cycle equivalent edges of a directed graph.
#![tactic(auto)]

ghost use Rattle.std.specs.Prelude.{◌≡◌, ◌+◌, ◌*◌, ◌<◌, ◌≤◌, ℕ, List, IfOk, OnOk};
ghost use Rattle.closed_walks.specs.Graph.{Graph, edge_count};
ghost use Rattle.closed_walks.specs.Walk.{IsStrong};
ghost use Rattle.closed_walks.specs.Numbering.{IsNumbering};

mod laws;
mod naming;
mod walk;
mod walk_caps;
mod walk_names;
mod walk_reaches;
mod walk_tree;

use closed_walks::Digraph;
use df_sequence::NoMemory;
pub use laws::{brackets_tell_classes, names_tell_classes};
use naming::numbered;
use std::alloc::Global;
use std::sync::ledger::Ledger;
use step_count::Steps;
use walk::edge_names;

/// The class of each edge of a strongly connected graph with an edge. Two edges have the same number exactly where every
/// closed walk that holds either holds both, and the classes are numbered from 0 in the order of their lowest edges. It takes
/// at most four steps for each edge and three for each node.
///
/// One depth-first walk of the undirected view of the graph gives each edge a name, which is the top of a list of brackets and
/// how long the list is.
///
/// Cycle equivalence: Johnson, Pearson and Pingali, "The program structure tree", PLDI 1994.
pub fn edge_classes<L: Ledger>(
    alloc: Global,
    g: &Digraph,
    steps: &mut Steps<L>,
) -> Result<Vec<u32>, NoMemory>
    requires strong { IsStrong g.now }
    requires some { 0 < edge_count g.now }
    ensures classes { IfOk result (λ classes. IsNumbering g.now classes.items) }
    ensures steps { OnOk result (steps.new ≤ steps.old + (4 * edge_count g.now + 3 * g.now.nodes)) }
{
    let names = edge_names(alloc, g, steps)?;
    numbered(alloc, &names.tops, &names.sizes)
}

/// The clause of `edge_classes` determines the numbers.
pub fn one_numbering()
    ensures { (g : Graph) (classes others : List ℕ) → IsNumbering g classes → IsNumbering g others → classes ≡ others }
{}
