//! Which regions lie in which.

ghost use Rattle.std.specs.Prelude.{IfOk};
ghost use Rattle.closed_walks.specs.Graph.{edge_count};
ghost use Rattle.closed_walks.specs.Region.{IsFlowGraph};
ghost use Rattle.region_tree.specs.Listing.{AreEntryNumbers};
ghost use Rattle.region_tree.specs.Nesting.{IsNested, listed};
ghost use Rattle.region_tree.specs.Scan.{IsScan};
ghost use Rattle.region_tree.specs.Tree.{AreRegions};

use crate::facts::region_facts;
use crate::listing::Listing;
use closed_walks::Digraph;
use df_sequence::NoMemory;
use std::alloc::Global;

/// The parents of regions, and for each node the smallest region that holds it.
#[derive(Drop)]
pub(crate) struct Nesting {
    pub(crate) parents: Vec<u32>,
    pub(crate) innermost: Vec<u32>,
}

/// Goes once over the edges. What holds the end of an edge is what holds its beginning, but for the region that the edge leaves
/// and with the one that it enters; of the regions that hold its beginning the one that it leaves is the smallest. A node's
/// region is noted as often as an edge comes to the node, and is the same each time. Where no region holds the beginning, 0 is
/// noted there, and at place 0 of the exits and of the parents stands a 0 as well.
pub(crate) fn nest(
    alloc: Global,
    g: &Digraph,
    edges: &[u32],
    listing: &Listing,
) -> Result<Nesting, NoMemory>
    requires flow { IsFlowGraph g.now }
    requires scan { IsScan g.now edges.now }
    requires regions { AreRegions g.now (listed listing.now) }
    requires numbers { AreEntryNumbers (edge_count g.now) listing.now.numbers.items listing.now.entries.items }
    ensures { IfOk result (λ nesting. IsNested g.now (listed listing.now) edges.now nesting.parents.items nesting.innermost.items) }
{
    region_facts();
    let mut parents = vec![in alloc; 0; listing.entries.len()]?;
    let mut innermost = vec![in alloc; 0; g.nodes() as usize]?;
    for e in edges {
        let here = innermost[g.from(*e) as usize];
        let outer = if listing.exits[here as usize] == *e {
            parents[here as usize]
        } else {
            here
        };
        let entered = listing.numbers[*e as usize];
        let there = if entered == 0 {
            outer
        } else {
            parents[entered as usize] = outer;
            entered
        };
        innermost[g.to(*e) as usize] = there;
    }
    Ok(Nesting { parents, innermost })
}
