//! The making of a region tree.

ghost use Rattle.std.specs.Prelude.{IfOk};
ghost use Rattle.closed_walks.specs.Numbering.{IsNumbering};
ghost use Rattle.closed_walks.specs.Region.{IsFlowGraph};
ghost use Rattle.region_tree.specs.Tree.{IsRegionTree};

use crate::RegionTree;
use crate::facts::region_facts;
use crate::listing::list;
use crate::nesting::nest;
use crate::next_edges::next_edges;
use crate::scan::scan;
use closed_walks::Digraph;
use df_sequence::NoMemory;
use std::alloc::Global;

/// The tree of the regions of a flow graph, whose start is node 0. The classes are those of cycle equivalent edges. Its time and
/// memory are a few steps and words for each edge and node.
pub fn region_tree(alloc: Global, g: &Digraph, classes: &Vec<u32>) -> Result<RegionTree, NoMemory>
    requires flow { IsFlowGraph g.now }
    requires classes { IsNumbering g.now classes.now.items }
    ensures { IfOk result (λ t. IsRegionTree g.now t) }
{
    region_facts();
    let edges = scan(alloc, g)?;
    let next = next_edges(alloc, classes.as_slice(), edges.as_slice())?;
    let listing = list(alloc, g.edges(), next.as_slice())?;
    let nesting = nest(alloc, g, edges.as_slice(), &listing)?;
    Ok(RegionTree {
        entries: listing.entries,
        exits: listing.exits,
        parents: nesting.parents,
        innermost: nesting.innermost,
    })
}
