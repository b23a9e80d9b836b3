//! What is known of region trees, in one clause.

ghost use Rattle.closed_walks.specs.Graph.{Graph};
ghost use Rattle.closed_walks.specs.Region.{IsFlowGraph};
ghost use Rattle.region_tree.specs.Tree.{Tree, IsRegionTree};
ghost use Rattle.dep_routing.specs.Facts.{TreeFacts};

use region_tree::{
    holders_are_a_chain, passed_nodes_are_regions, region_borders, region_numbers,
    start_is_outside, tree_nests, tree_ranks,
};

/// What the laws on region trees say.
pub(crate) fn tree_facts()
    ensures { (g : Graph) (t : Tree) → IsFlowGraph g → IsRegionTree g t → TreeFacts g t }
{
    region_borders();
    region_numbers();
    tree_nests();
    start_is_outside();
    passed_nodes_are_regions();
    tree_ranks();
    holders_are_a_chain();
}
