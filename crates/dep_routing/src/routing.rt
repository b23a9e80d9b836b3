//! The making of a table of wires.

ghost use Rattle.std.specs.Prelude.{◌≡◌, ◌≤◌, ◌*◌, length, IfOk};
ghost use Rattle.class_set.specs.Members.{IsWidth};
ghost use Rattle.closed_walks.specs.Region.{IsFlowGraph};
ghost use Rattle.region_tree.specs.Tree.{IsRegionTree};
ghost use Rattle.dep_routing.specs.LineTable.{HaveRows};
ghost use Rattle.dep_routing.specs.Routing.{IsRouting};
ghost use Rattle.dep_routing.specs.Touch.{touches_in};

use crate::borders::borders_of;
use crate::facts::tree_facts;
use crate::noise::noisy_regions;
use crate::order::regions_in_order;
use crate::rows::{next_rows, wire_sets};
use crate::{Lines, TouchList};
use closed_walks::Digraph;
use df_sequence::NoMemory;
use region_tree::RegionTree;
use std::alloc::Global;

/// The wires of the lines from 0 on, so many, and to which edges the lines are led. `touch` has the set of lines of each node. It takes
/// a set of lines for each region, and for each region and each 16 lines four bytes, with 64 more where a node of the region touches one of
/// the 16.
pub fn route<const W: usize>(
    alloc: Global,
    g: &Digraph,
    t: &RegionTree,
    touch: &TouchList<W>,
    lines: u32,
) -> Result<Lines<W>, NoMemory>
    requires width { IsWidth W }
    requires lines { lines ≤ 64 * W }
    requires flow { IsFlowGraph g.now }
    requires tree { IsRegionTree g.now t.now }
    requires nodes { length touch.now ≡ g.now.nodes }
    ensures routing { IfOk result (λ r. IsRouting g.now t.now (touches_in touch.now) lines r) }
    ensures rows { IfOk result HaveRows }
{
    tree_facts();
    let borders = borders_of(alloc, g, t)?;
    let order = regions_in_order(alloc, t, &borders)?;
    let noisy = noisy_regions(alloc, g, t, touch)?;
    let next = next_rows(alloc, g.edges(), t, order.as_slice(), &noisy, lines)?;
    let wires = wire_sets(alloc, g, t, noisy, lines)?;
    Ok(Lines { lines, wires, next })
}
