//! Which regions edges enter and leave.

ghost use Rattle.std.specs.Prelude.{IfOk, length};
ghost use Rattle.closed_walks.specs.Graph.{edge_count};
ghost use Rattle.closed_walks.specs.Region.{IsFlowGraph};
ghost use Rattle.region_tree.specs.Tree.{IsRegionTree, entry_of, exit_of};
ghost use Rattle.dep_routing.specs.Numbers.{AreNumbersBelow};

use crate::facts::tree_facts;
use closed_walks::Digraph;
use df_sequence::NoMemory;
use region_tree::RegionTree;
use std::alloc::Global;

/// For each edge the region that it enters, and the region that it leaves, or 0.
#[derive(Drop)]
pub(crate) struct Borders {
    pub(crate) entered: Vec<u32>,
    pub(crate) left: Vec<u32>,
}

/// Notes each region at its entry and at its exit.
pub(crate) fn borders_of(alloc: Global, g: &Digraph, t: &RegionTree) -> Result<Borders, NoMemory>
    requires flow { IsFlowGraph g.now }
    requires tree { IsRegionTree g.now t.now }
    ensures entered { IfOk result (λ b. AreNumbersBelow (edge_count g.now) (length t.now.entries) (entry_of t.now) b.entered.items) }
    ensures left { IfOk result (λ b. AreNumbersBelow (edge_count g.now) (length t.now.entries) (exit_of t.now) b.left.items) }
{
    tree_facts();
    let mut entered = vec![in alloc; 0; g.edges() as usize]?;
    let mut left = vec![in alloc; 0; g.edges() as usize]?;
    for r in 1..t.count() + 1 {
        entered[t.entry(r) as usize] = r;
        left[t.exit(r) as usize] = r;
    }
    Ok(Borders { entered, left })
}
